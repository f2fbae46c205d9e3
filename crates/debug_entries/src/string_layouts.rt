// The layouts of string variables: variable 2, data offset 4, length 2.
ghost use Rattle.std.proofs.Common.{rules};
ghost use Rattle.reading.proofs.Left.{stays-local};
ghost use Rattle.reading.proofs.Width.{fixed-width};
ghost use Rattle.format.specs.Debug.{StringLayout, string_layout};
ghost use Rattle.format.proofs.Readers.{local-string_layout};
ghost use Rattle.format.proofs.Widths.{layout-fixed};
ghost use Rattle.debug_text.specs.Answers.{debug_fault_of};
ghost use Rattle.debug_entries.specs.Answers.{string_layout_in};

use base::cut::Cut;
use base::entry::{Entry, OneWidth, Plain};
use base::id_types::VarIndex;
use debug_text::DebugFault;
use reading::{u16_at, u32_at};

const STRING_LAYOUT_ENTRY_SIZE: usize = 8;

#[derive(Clone, Copy)]
pub struct StringLayoutEntry {
    pub var_index: VarIndex,
    pub data_offset: u32,
    pub max_length: u16,
}

impl Entry for StringLayoutEntry {
    type Error = DebugFault;

    ghost Kept = { StringLayout };

    ghost kept = { string_layout_in };

    ghost told = { debug_fault_of };

    ghost reader = { λ _. string_layout };

    ghost stays = { λ _ s. stays-local s local-string_layout };

    #[tactic(auto, using(crate::proofs::Entries::layout_short, crate::proofs::Entries::layout_read))]
    fn read(cut: Cut, at: usize) -> Result<(Self, usize), DebugFault> {
        if cut.left(at) < STRING_LAYOUT_ENTRY_SIZE {
            return Err(DebugFault::Short);
        }
        let entry = StringLayoutEntry {
            var_index: VarIndex(u16_at(cut.bytes, at)),
            data_offset: u32_at(cut.bytes, at + 2),
            max_length: u16_at(cut.bytes, at + 6),
        };
        Ok((entry, at + STRING_LAYOUT_ENTRY_SIZE))
    }
}

impl OneWidth for StringLayoutEntry {
    const WIDTH: usize = STRING_LAYOUT_ENTRY_SIZE;

    ghost WIDTH = { 8 };

    ghost width = { λ _. (Prim.search rules, fixed-width layout-fixed) };
}

impl Plain for StringLayoutEntry {
    ghost fixed = { λ _. layout-fixed };
}
