// Identifiers, each a type of its own: a FunctionId is never taken for a TaskId.
// Kept: `new` and `raw` for each, as the Rust's derive makes them. A generic type would need a type for each kind beside it, and no macro may write an impl.
ghost use Rattle.std.specs.Prelude.{◌≡◌};

// A function, by its position in the code section's directory.
#[derive(Clone, Copy, Debug, PartialEq, Eq)]
pub struct FunctionId(pub u16);

impl FunctionId {
    // The init function.
    pub const INIT: FunctionId = FunctionId(0);
    // The scan function.
    pub const SCAN: FunctionId = FunctionId(1);
    // The first function that a user defined.
    pub const FIRST_USER: FunctionId = FunctionId(2);
    // No single function: a variable of program or global scope.
    pub const GLOBAL_SCOPE: FunctionId = FunctionId(0xffff);

    pub fn new(raw: u16) -> Self
        ensures { result.0 ≡ raw }
    {
        Self(raw)
    }

    pub fn raw(self) -> u16
        ensures { result ≡ self.0 }
    {
        self.0
    }
}

// A task.
#[derive(Clone, Copy, Debug, PartialEq, Eq)]
pub struct TaskId(pub u16);

impl TaskId {
    // The default task.
    pub const DEFAULT: TaskId = TaskId(0);

    pub fn new(raw: u16) -> Self
        ensures { result.0 ≡ raw }
    {
        Self(raw)
    }

    pub fn raw(self) -> u16
        ensures { result ≡ self.0 }
    {
        self.0
    }
}

// A program instance.
#[derive(Clone, Copy, Debug, PartialEq, Eq)]
pub struct InstanceId(pub u16);

impl InstanceId {
    // The default instance.
    pub const DEFAULT: InstanceId = InstanceId(0);

    pub fn new(raw: u16) -> Self
        ensures { result.0 ≡ raw }
    {
        Self(raw)
    }

    pub fn raw(self) -> u16
        ensures { result ≡ self.0 }
    {
        self.0
    }
}

// A function block type.
#[derive(Clone, Copy, Debug, PartialEq, Eq)]
pub struct FbTypeId(pub u16);

impl FbTypeId {
    pub fn new(raw: u16) -> Self
        ensures { result.0 ≡ raw }
    {
        Self(raw)
    }

    pub fn raw(self) -> u16
        ensures { result ≡ self.0 }
    {
        self.0
    }
}

// An index into the variable table.
#[derive(Clone, Copy, Debug, PartialEq, Eq)]
pub struct VarIndex(pub u16);

impl VarIndex {
    // No variable triggers the task.
    pub const NO_SINGLE_VAR: VarIndex = VarIndex(0xffff);

    pub fn new(raw: u16) -> Self
        ensures { result.0 ≡ raw }
    {
        Self(raw)
    }

    pub fn raw(self) -> u16
        ensures { result ≡ self.0 }
    {
        self.0
    }
}

// An index into the constant pool.
#[derive(Clone, Copy, Debug, PartialEq, Eq)]
pub struct ConstantIndex(pub u16);

impl ConstantIndex {
    pub fn new(raw: u16) -> Self
        ensures { result.0 ≡ raw }
    {
        Self(raw)
    }

    pub fn raw(self) -> u16
        ensures { result ≡ self.0 }
    {
        self.0
    }
}

// An index into the debug section's source files.
#[derive(Clone, Copy, Debug, PartialEq, Eq)]
pub struct SourceFileId(pub u16);

impl SourceFileId {
    pub fn new(raw: u16) -> Self
        ensures { result.0 ≡ raw }
    {
        Self(raw)
    }

    pub fn raw(self) -> u16
        ensures { result ≡ self.0 }
    {
        self.0
    }
}

// A source line, from 1 on; 0 is unknown.
#[derive(Clone, Copy, Debug, PartialEq, Eq)]
pub struct SourceLine(pub u16);

impl SourceLine {
    pub fn new(raw: u16) -> Self
        ensures { result.0 ≡ raw }
    {
        Self(raw)
    }

    pub fn raw(self) -> u16
        ensures { result ≡ self.0 }
    {
        self.0
    }
}

// A source column, from 1 on; 0 is unknown.
#[derive(Clone, Copy, Debug, PartialEq, Eq)]
pub struct SourceColumn(pub u16);

impl SourceColumn {
    pub fn new(raw: u16) -> Self
        ensures { result.0 ≡ raw }
    {
        Self(raw)
    }

    pub fn raw(self) -> u16
        ensures { result ≡ self.0 }
    {
        self.0
    }
}
