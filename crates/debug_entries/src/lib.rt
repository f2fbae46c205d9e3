// The entries of the debug section's tables other than lines. Names and paths are answered as parts of the file.
#![tactic(auto)]

ghost use Rattle.debug_entries.specs.Laws.{Laws};

pub mod enumerations;
pub mod function_id;
pub mod function_names;
pub mod iec_type_tag;
pub mod source_files;
pub mod string_layouts;
pub mod var_section;
pub mod variables;

// The claims of `specs/Laws.antt` hold. Empty body: the contract makes the checker prove them.
pub fn laws_hold()
    ensures { Laws }
{}
