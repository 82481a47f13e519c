//! The signs, each by its place in their list.

pub const OPEN_BRACE: u8 = 0;

pub const CLOSE_BRACE: u8 = 1;

pub const OPEN_PARENTHESIS: u8 = 2;

pub const CLOSE_PARENTHESIS: u8 = 3;

pub const OPEN_BRACKET: u8 = 4;

pub const CLOSE_BRACKET: u8 = 5;

pub const COMMA: u8 = 6;

pub const SEMICOLON: u8 = 7;

pub const EQUALS: u8 = 8;

pub const AT_MOST: u8 = 9;

pub const AT_LEAST: u8 = 10;

pub const EQUAL_TO: u8 = 11;

pub const PLUS: u8 = 12;

pub const MINUS: u8 = 13;

pub const TIMES: u8 = 14;

pub const DIVIDE: u8 = 15;

pub const TILDE: u8 = 16;

pub const BANG: u8 = 17;

pub const AND: u8 = 18;

pub const AND_AND: u8 = 19;

pub const OR: u8 = 20;

pub const OR_OR: u8 = 21;

pub const THEN: u8 = 22;

pub const FROM: u8 = 23;

pub const IFF: u8 = 24;
