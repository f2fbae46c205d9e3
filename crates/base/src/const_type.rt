// The types of constants.
ghost use Rattle.std.specs.Prelude.{◌≡◌, not};
ghost use Rattle.format.specs.Constants.{is_number};
ghost use Rattle.base.specs.Small.{const_type_number, ConstTypeOf, maybe_width, width_of_type};

use crate::char_width::CharWidth;
use crate::error::ContainerError;

#[derive(Clone, Copy, Debug, PartialEq, Eq)]
pub enum ConstType {
    I32 = 0,
    U32 = 1,
    I64 = 2,
    U64 = 3,
    F32 = 4,
    F64 = 5,
    Str = 6,
    WStr = 7,
}

impl ConstType {
    pub fn number(self) -> u8
        ensures { result ≡ const_type_number self }
    {
        self as u8
    }

    // Bytes per character of a string constant.
    pub fn char_width(self) -> Option<CharWidth>
        ensures { maybe_width result ≡ width_of_type (const_type_number self) }
    {
        match self {
            ConstType::Str => Some(CharWidth::Narrow),
            ConstType::WStr => Some(CharWidth::Wide),
            _ => None,
        }
    }

    pub fn is_string_like(self) -> bool
        ensures { result ≡ not (is_number (const_type_number self)) }
    {
        matches!(self, ConstType::Str | ConstType::WStr)
    }
}

impl TryFrom<u8> for ConstType {
    type Error = ContainerError;

    ghost try_from_gives = { ConstTypeOf };

    fn try_from(value: u8) -> Result<Self, ContainerError> {
        match value {
            0 => Ok(ConstType::I32),
            1 => Ok(ConstType::U32),
            2 => Ok(ConstType::I64),
            3 => Ok(ConstType::U64),
            4 => Ok(ConstType::F32),
            5 => Ok(ConstType::F64),
            6 => Ok(ConstType::Str),
            7 => Ok(ConstType::WStr),
            _ => Err(ContainerError::InvalidConstantType(value)),
        }
    }
}
