// What every section uses.
#![tactic(auto)]

pub mod char_width;
pub mod const_type;
pub mod cut;
pub mod digest;
pub mod entry;
pub mod error;
pub mod field_type;
pub mod id_types;
pub mod section;
pub mod string_layout;
pub mod task_type;
