// The layout of a string in the data region: maximum length, current length and width, 2 bytes each, then the characters.
ghost use Rattle.std.specs.Prelude.{◌≡◌};
ghost use Rattle.base.specs.Small.{string_region_size};

use crate::char_width::CharWidth;

pub const STRING_HEADER_BYTES: usize = 6;

// The maximum length, in characters, of a string declared without one.
pub const DEFAULT_STRING_MAX_LENGTH: u16 = 254;

// The bytes of a string of at most `max_length` characters, with its header.
pub fn string_region_size(max_length: u16, char_width: CharWidth) -> u32
    ensures { result ≡ string_region_size max_length char_width }
{
    let width = char_width.byte_width() as u32;
    (STRING_HEADER_BYTES as u32) + (max_length as u32) * width
}
