//! The numbers of the metagrammar's rules, in order.

pub const GRAMMAR: u32 = 0;

pub const DEFINITION: u32 = 1;

pub const EXPRESSION: u32 = 2;

pub const SEQUENCE: u32 = 3;

pub const PREFIX: u32 = 4;

pub const SUFFIX: u32 = 5;

pub const PRIMARY: u32 = 6;

pub const IDENTIFIER: u32 = 7;

pub const IDENT_START: u32 = 8;

pub const IDENT_CONT: u32 = 9;

pub const LITERAL: u32 = 10;

pub const CLASS: u32 = 11;

pub const RANGE: u32 = 12;

pub const CHAR: u32 = 13;

pub const LEFTARROW: u32 = 14;

pub const SLASH: u32 = 15;

pub const AND: u32 = 16;

pub const NOT: u32 = 17;

pub const QUESTION: u32 = 18;

pub const STAR: u32 = 19;

pub const PLUS: u32 = 20;

pub const COUNT: u32 = 21;

pub const NUMBER: u32 = 22;

pub const OPEN: u32 = 23;

pub const CLOSE: u32 = 24;

pub const DOT: u32 = 25;

pub const SPACING: u32 = 26;

pub const COMMENT: u32 = 27;

pub const SPACE: u32 = 28;

pub const END_OF_LINE: u32 = 29;

pub const END_OF_FILE: u32 = 30;
