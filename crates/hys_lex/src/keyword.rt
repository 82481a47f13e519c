//! The keywords, each by its place in their list.

pub const SYSTEM: u8 = 0;

pub const INTERFACE: u8 = 1;

pub const IMPLEMENTATION: u8 = 2;

pub const STATE: u8 = 3;

pub const INPUT: u8 = 4;

pub const OUTPUT: u8 = 5;

pub const PARAMETER: u8 = 6;

pub const AUX: u8 = 7;

pub const AD: u8 = 8;

pub const DA: u8 = 9;

pub const LOGIC: u8 = 10;

pub const LINEAR: u8 = 11;

pub const AUTOMATA: u8 = 12;

pub const CONTINUOUS: u8 = 13;

pub const MUST: u8 = 14;

pub const REAL: u8 = 15;

pub const BOOL: u8 = 16;

pub const IF: u8 = 17;

pub const THEN: u8 = 18;

pub const ELSE: u8 = 19;

pub const TRUE: u8 = 20;

pub const TRUE_SMALL: u8 = 21;

pub const FALSE: u8 = 22;

pub const FALSE_SMALL: u8 = 23;
