//! The faults of a source in the order of their list, each by its number.

/// No blank, comment or token begins at the place.
pub const BYTE: u8 = 1;

/// The comment that begins at the place has no end.
pub const COMMENT: u8 = 2;

/// The name or literal that begins at the place is too long.
pub const LONG: u8 = 3;

/// No source goes on with the token at the place, or with the end of the text there.
pub const SYNTAX: u8 = 4;

/// The name at the place is declared twice.
pub const TWICE: u8 = 5;

/// The name at the place isn't declared, or not before a parameter's value that mentions it.
pub const UNKNOWN: u8 = 6;

/// What stands at the place has the wrong kind, or may not stand there.
pub const KIND: u8 = 7;

/// A product of two operands that aren't constant, or a division by one.
pub const NOT_LINEAR: u8 = 8;

/// A division by 0.
pub const ZERO_DIVISOR: u8 = 9;

/// The real state or input at the place has no bounds.
pub const NO_BOUNDS: u8 = 10;

/// The low end of the bounds is above the high end.
pub const EMPTY_BOUNDS: u8 = 11;

/// The parameter at the place has no value.
pub const NO_VALUE: u8 = 12;

/// The name has no item that defines it.
pub const MISSING: u8 = 13;

/// The name at the place is defined before.
pub const DEFINED_TWICE: u8 = 14;

/// The name at the place isn't defined by items of that section.
pub const WRONG_SECTION: u8 = 15;

/// The names are defined by one another in a circle.
pub const CYCLE: u8 = 16;

/// A number doesn't fit.
pub const RANGE: u8 = 17;

/// A limit is passed.
pub const LIMIT: u8 = 18;

/// The source is one that isn't built yet. No source has this fault any more, but it keeps its number.
pub const NOT_YET: u8 = 19;

/// The tolerance isn't above 0.
pub const TOLERANCE: u8 = 20;
