// The types of FB fields.
ghost use Rattle.std.specs.Prelude.{◌≡◌};
ghost use Rattle.base.specs.Small.{field_type_number, FieldTypeOf, string_type};

use crate::char_width::CharWidth;
use crate::error::ContainerError;

#[derive(Clone, Copy, Debug, PartialEq, Eq)]
pub enum FieldType {
    I32 = 0,
    U32 = 1,
    I64 = 2,
    U64 = 3,
    F32 = 4,
    F64 = 5,
    String = 6,
    WString = 7,
    FbInstance = 8,
    Time = 9,
    Slot = 10,
}

impl FieldType {
    pub fn number(self) -> u8
        ensures { result ≡ field_type_number self }
    {
        self as u8
    }

    // The string type with this character width.
    pub fn string(char_width: CharWidth) -> FieldType
        ensures { field_type_number result ≡ string_type char_width }
    {
        match char_width {
            CharWidth::Narrow => FieldType::String,
            CharWidth::Wide => FieldType::WString,
        }
    }
}

impl TryFrom<u8> for FieldType {
    type Error = ContainerError;

    ghost try_from_gives = { FieldTypeOf };

    fn try_from(value: u8) -> Result<Self, ContainerError> {
        match value {
            0 => Ok(FieldType::I32),
            1 => Ok(FieldType::U32),
            2 => Ok(FieldType::I64),
            3 => Ok(FieldType::U64),
            4 => Ok(FieldType::F32),
            5 => Ok(FieldType::F64),
            6 => Ok(FieldType::String),
            7 => Ok(FieldType::WString),
            8 => Ok(FieldType::FbInstance),
            9 => Ok(FieldType::Time),
            10 => Ok(FieldType::Slot),
            _ => Err(ContainerError::InvalidFieldType(value)),
        }
    }
}
