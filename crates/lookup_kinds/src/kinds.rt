// The kinds of lookup, by the names of the C header without their prefix CONTAINER_, each with its number there.
ghost use Rattle.std.specs.Prelude.{◌≡◌};
ghost use Rattle.lookup_kinds.specs.Kinds.{kind_number, KindOf};

#[derive(Clone, Copy, Debug, PartialEq, Eq)]
pub enum Kind {
    // Tasks and types.
    Task = 0,
    Program = 1,
    FbType = 2,
    Field = 3,
    Array = 4,
    ArraySize = 5,
    UserFb = 6,
    // Constants.
    Constant = 7,
    GetI32 = 8,
    GetU32 = 9,
    GetI64 = 10,
    GetU64 = 11,
    GetF32 = 12,
    GetF64 = 13,
    GetStr = 14,
    CharWidth = 15,
    // Code.
    Function = 16,
    Bytecode = 17,
    // The debug tables.
    Line = 18,
    LineEntry = 19,
    Variable = 20,
    FunctionName = 21,
    StringLayout = 22,
    SourceFile = 23,
    Enumeration = 24,
    EnumerationValue = 25,
}

// A number of no kind.
#[derive(Clone, Copy, Debug, PartialEq, Eq)]
pub struct UnknownKind(pub u16);

impl Kind {
    pub fn number(self) -> u16
        ensures { result ≡ kind_number self }
    {
        self as u16
    }
}

impl TryFrom<u16> for Kind {
    type Error = UnknownKind;

    ghost try_from_gives = { KindOf };

    fn try_from(value: u16) -> Result<Self, UnknownKind> {
        match value {
            0 => Ok(Kind::Task),
            1 => Ok(Kind::Program),
            2 => Ok(Kind::FbType),
            3 => Ok(Kind::Field),
            4 => Ok(Kind::Array),
            5 => Ok(Kind::ArraySize),
            6 => Ok(Kind::UserFb),
            7 => Ok(Kind::Constant),
            8 => Ok(Kind::GetI32),
            9 => Ok(Kind::GetU32),
            10 => Ok(Kind::GetI64),
            11 => Ok(Kind::GetU64),
            12 => Ok(Kind::GetF32),
            13 => Ok(Kind::GetF64),
            14 => Ok(Kind::GetStr),
            15 => Ok(Kind::CharWidth),
            16 => Ok(Kind::Function),
            17 => Ok(Kind::Bytecode),
            18 => Ok(Kind::Line),
            19 => Ok(Kind::LineEntry),
            20 => Ok(Kind::Variable),
            21 => Ok(Kind::FunctionName),
            22 => Ok(Kind::StringLayout),
            23 => Ok(Kind::SourceFile),
            24 => Ok(Kind::Enumeration),
            25 => Ok(Kind::EnumerationValue),
            _ => Err(UnknownKind(value)),
        }
    }
}
