// The refusals of document 01's table. One more without values takes a line each here, in `number` and in `fault_of` of `specs/Error.antt`,
// and two in the proof of `number`; nothing else changes.
ghost use Rattle.std.specs.Prelude.{◌≡◌, [], ◌∷◌};
ghost use Rattle.base.specs.Error.{fault_of, refusal_number, kept_values, values_of};

use crate::id_types::ConstantIndex;

#[derive(Clone, Copy, Debug, PartialEq, Eq)]
pub enum ContainerError {
    ShortInput,
    InvalidMagic,
    UnsupportedVersion,
    SectionSizeMismatch,
    ContentHashMismatch,
    InvalidTaskType(u8),
    InvalidFieldType(u8),
    InvalidArrayStride {
        element_type: u8,
        element_stride: u32,
    },
    InvalidConstantType(u8),
    TooLong,
    InvalidConstantIndex(ConstantIndex),
    NoFunction,
    NoLine,
    UnsortedMap,
    NoDebug,
    NoArray,
    SizeOverflow,
    NoEntry,
}

// The values that a refusal names: `count` of them, at most two, and zeros behind them.
// Kept: two fields and a count, since there is no heap and the C library writes them one behind the other.
#[derive(Clone, Copy)]
pub struct Values {
    pub count: usize,
    pub first: u32,
    pub second: u32,
}

impl ContainerError {
    // The number that document 01 gives the refusal.
    pub fn number(self) -> u8
        ensures { result ≡ refusal_number (fault_of self) }
    {
        match self {
            ContainerError::ShortInput => 1,
            ContainerError::InvalidMagic => 2,
            ContainerError::UnsupportedVersion => 3,
            ContainerError::SectionSizeMismatch => 4,
            ContainerError::ContentHashMismatch => 5,
            ContainerError::InvalidTaskType(_) => 6,
            ContainerError::InvalidFieldType(_) => 7,
            ContainerError::InvalidArrayStride {
                element_type: _,
                element_stride: _,
            } => 8,
            ContainerError::InvalidConstantType(_) => 9,
            ContainerError::TooLong => 10,
            ContainerError::InvalidConstantIndex(_) => 11,
            ContainerError::NoFunction => 12,
            ContainerError::NoLine => 13,
            ContainerError::UnsortedMap => 14,
            ContainerError::NoDebug => 15,
            ContainerError::NoArray => 16,
            ContainerError::SizeOverflow => 17,
            ContainerError::NoEntry => 29,
        }
    }

    // The values that document 01 names for the refusal.
    pub fn values(self) -> Values
        ensures { result ≡ values_of (fault_of self) }
    {
        match self {
            ContainerError::InvalidTaskType(kind) => Values::one(kind as u32),
            ContainerError::InvalidFieldType(kind) => Values::one(kind as u32),
            ContainerError::InvalidArrayStride {
                element_type,
                element_stride,
            } => Values {
                count: 2,
                first: element_type as u32,
                second: element_stride,
            },
            ContainerError::InvalidConstantType(kind) => Values::one(kind as u32),
            ContainerError::InvalidConstantIndex(index) => Values::one(index.raw() as u32),
            _ => Values {
                count: 0,
                first: 0,
                second: 0,
            },
        }
    }
}

impl Values {
    fn one(value: u32) -> Values
        ensures { result ≡ kept_values (value ∷ []) }
    {
        Values {
            count: 1,
            first: value,
            second: 0,
        }
    }
}
