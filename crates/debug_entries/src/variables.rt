// Variables: index 2, function 2, section 1, type 1, name, type name.
ghost use Rattle.format.specs.Parts.{Place, by_place};
ghost use Rattle.format.specs.Debug.{Variable, variable};
ghost use Rattle.format.proofs.Leaves.{stays-variable};
ghost use Rattle.debug_text.specs.Answers.{debug_fault_of};
ghost use Rattle.debug_entries.specs.Answers.{variable_in};

use base::cut::Cut;
use base::entry::Entry;
use base::id_types::{FunctionId, VarIndex};
use base::section::Part;
use debug_text::{DebugFault, Name};
use reading::{u8_at, u16_at};

// The size of a variable's numbers, which stand in front of its names.
const VARIABLE_NUMBERS_SIZE: usize = 6;

#[derive(Clone, Copy)]
pub struct VariableEntry {
    pub var_index: VarIndex,
    pub function_id: FunctionId,
    pub var_section: u8,
    pub iec_type_tag: u8,
    pub name: Part,
    pub type_name: Part,
}

impl Entry for VariableEntry {
    type Error = DebugFault;

    ghost Kept = { Variable Place };

    ghost kept = { variable_in };

    ghost told = { debug_fault_of };

    ghost reader = { λ p. variable (by_place p) };

    ghost stays = { λ p s. stays-variable (by_place p) s };

    #[tactic(auto, using(crate::proofs::Entries::var_short, crate::proofs::Entries::var_err, crate::proofs::Entries::var_type, crate::proofs::Entries::var_read))]
    fn read(cut: Cut, at: usize) -> Result<(Self, usize), DebugFault> {
        if cut.left(at) < VARIABLE_NUMBERS_SIZE {
            return Err(DebugFault::Short);
        }
        let var_index = VarIndex(u16_at(cut.bytes, at));
        let function_id = FunctionId(u16_at(cut.bytes, at + 2));
        let var_section = u8_at(cut.bytes, at + 4);
        let iec_type_tag = u8_at(cut.bytes, at + 5);
        let (name, behind) = Name::read(cut, at + VARIABLE_NUMBERS_SIZE)?;
        let (type_name, end) = Name::read(cut, behind)?;
        let entry = VariableEntry {
            var_index,
            function_id,
            var_section,
            iec_type_tag,
            name: name.0,
            type_name: type_name.0,
        };
        Ok((entry, end))
    }
}
