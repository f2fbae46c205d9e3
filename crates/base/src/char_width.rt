// Bytes per character of a string.
ghost use Rattle.std.specs.Prelude.{◌≡◌};
ghost use Rattle.base.specs.Small.{byte_width, is_wide, WidthOf};

#[derive(Clone, Copy, Debug, PartialEq, Eq)]
pub enum CharWidth {
    // STRING: Latin-1, one byte per character.
    Narrow = 1,
    // WSTRING: UTF-16, two bytes per code unit.
    Wide = 2,
}

// A byte that is no width.
#[derive(Clone, Copy, Debug, PartialEq, Eq)]
pub struct InvalidCharWidth(pub u8);

impl CharWidth {
    pub fn byte_width(self) -> u8
        ensures { result ≡ byte_width self }
    {
        self as u8
    }

    // The same as a `usize`.
    pub fn as_usize(self) -> usize
        ensures { result ≡ byte_width self }
    {
        self.byte_width() as usize
    }

    pub fn is_wide(self) -> bool
        ensures { result ≡ is_wide self }
    {
        matches!(self, CharWidth::Wide)
    }
}

impl TryFrom<u8> for CharWidth {
    type Error = InvalidCharWidth;

    ghost try_from_gives = { WidthOf };

    fn try_from(value: u8) -> Result<Self, InvalidCharWidth> {
        match value {
            1 => Ok(CharWidth::Narrow),
            2 => Ok(CharWidth::Wide),
            _ => Err(InvalidCharWidth(value)),
        }
    }
}
