// Function names: id 2, name.
ghost use Rattle.format.specs.Parts.{Place, by_place};
ghost use Rattle.format.specs.Debug.{FunctionName, function_name};
ghost use Rattle.format.proofs.Leaves.{stays-function};
ghost use Rattle.debug_text.specs.Answers.{debug_fault_of};
ghost use Rattle.debug_entries.specs.Answers.{function_name_in};

use base::cut::Cut;
use base::entry::Entry;
use base::id_types::FunctionId;
use base::section::Part;
use debug_text::{DebugFault, Name};
use reading::u16_at;

// The size of the id in front of a function's name.
const FUNCTION_ID_SIZE: usize = 2;

#[derive(Clone, Copy)]
pub struct FunctionNameEntry {
    pub function_id: FunctionId,
    pub name: Part,
}

impl Entry for FunctionNameEntry {
    type Error = DebugFault;

    ghost Kept = { FunctionName Place };

    ghost kept = { function_name_in };

    ghost told = { debug_fault_of };

    ghost reader = { λ p. function_name (by_place p) };

    ghost stays = { λ p s. stays-function (by_place p) s };

    #[tactic(auto, using(crate::proofs::Entries::func_short, crate::proofs::Entries::func_err, crate::proofs::Entries::func_read))]
    fn read(cut: Cut, at: usize) -> Result<(Self, usize), DebugFault> {
        if cut.left(at) < FUNCTION_ID_SIZE {
            return Err(DebugFault::Short);
        }
        let function_id = FunctionId(u16_at(cut.bytes, at));
        let (name, end) = Name::read(cut, at + FUNCTION_ID_SIZE)?;
        Ok((
            FunctionNameEntry {
                function_id,
                name: name.0,
            },
            end,
        ))
    }
}
