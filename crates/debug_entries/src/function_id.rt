// The function to which a variable belongs.
use base::id_types::FunctionId;

// No function: a variable of program or global scope.
pub const GLOBAL_SCOPE: FunctionId = FunctionId::GLOBAL_SCOPE;
