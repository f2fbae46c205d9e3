// The types of variables, as the debug section tags them.
// Kept: document 01 refuses no number here, so an entry keeps any byte. An enum with `Other(u8)` would have two ways to say a listed number.
pub const BOOL: u8 = 0;

pub const SINT: u8 = 1;

pub const INT: u8 = 2;

pub const DINT: u8 = 3;

pub const LINT: u8 = 4;

pub const USINT: u8 = 5;

pub const UINT: u8 = 6;

pub const UDINT: u8 = 7;

pub const ULINT: u8 = 8;

pub const REAL: u8 = 9;

pub const LREAL: u8 = 10;

pub const BYTE: u8 = 11;

pub const WORD: u8 = 12;

pub const DWORD: u8 = 13;

pub const LWORD: u8 = 14;

pub const STRING: u8 = 15;

pub const WSTRING: u8 = 16;

pub const TIME: u8 = 17;

pub const LTIME: u8 = 18;

pub const DATE: u8 = 19;

pub const LDATE: u8 = 20;

pub const TIME_OF_DAY: u8 = 21;

pub const LTOD: u8 = 22;

pub const DATE_AND_TIME: u8 = 23;

pub const LDT: u8 = 24;
// For a structure, an array and a function block instance the slot holds an offset into the data region.
pub const STRUCT: u8 = 25;

pub const ARRAY: u8 = 26;

pub const FB_INSTANCE: u8 = 27;
// Any other type; the type name says which.
pub const OTHER: u8 = 255;
