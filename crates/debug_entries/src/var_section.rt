// The sections in which variables are declared.
// Kept: document 01 refuses no number here, so an entry keeps any byte. An enum with `Other(u8)` would have two ways to say a listed number.
pub const VAR: u8 = 0;

pub const VAR_TEMP: u8 = 1;

pub const VAR_INPUT: u8 = 2;

pub const VAR_OUTPUT: u8 = 3;

pub const VAR_IN_OUT: u8 = 4;

pub const VAR_EXTERNAL: u8 = 5;

pub const VAR_GLOBAL: u8 = 6;
