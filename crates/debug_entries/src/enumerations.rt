// Enumerations: a name, a 2-byte count of values, and the values' names.
ghost use Rattle.std.specs.Prelude.{◌≡◌};
ghost use Rattle.format.specs.Faults.{no_entry};
ghost use Rattle.format.specs.Parts.{by_place};
ghost use Rattle.base.specs.Answers.{found_by};
ghost use Rattle.base.specs.Cut.{place_of};
ghost use Rattle.base.specs.Section.{part_in};
ghost use Rattle.debug_text.specs.Answers.{debug_fault_of};
ghost use Rattle.debug_entries.specs.Answers.{EnumerationWithValues, enumeration_in, enumeration_entry};
ghost use Rattle.debug_entries.specs.Lookups.{picked_value};
ghost use Rattle.debug_entries.specs.Stays.{entry_stays};

use base::cut::Cut;
use base::entry::{Entry, find, skip};
use base::section::Part;
use debug_text::{COUNT_SIZE, DebugFault, Name};
use reading::{Table, u16_at};

// The type's name, and the table of the values' names: the place of the first in the section, and their number.
#[derive(Clone, Copy)]
pub struct EnumerationEntry {
    pub type_name: Part,
    pub values: Table,
}

impl Entry for EnumerationEntry {
    type Error = DebugFault;

    ghost Kept = { EnumerationWithValues };

    ghost kept = { enumeration_in };

    ghost told = { debug_fault_of };

    ghost reader = { λ p. enumeration_entry p.offset (by_place p) };

    ghost stays = { λ p s. entry_stays p.offset (by_place p) s };

    #[tactic(auto, using(crate::proofs::Entries::enum_err, crate::proofs::Entries::enum_short, crate::proofs::Entries::enum_fault, crate::proofs::Entries::enum_read))]
    fn read(cut: Cut, at: usize) -> Result<(Self, usize), DebugFault> {
        let (type_name, behind) = Name::read(cut, at)?;
        if cut.left(behind) < COUNT_SIZE {
            return Err(DebugFault::Short);
        }
        let values = Table {
            at: behind + COUNT_SIZE,
            count: u16_at(cut.bytes, behind) as usize,
        };
        let end = skip::<Name>(cut, values.at, values.count)?;
        Ok((
            EnumerationEntry {
                type_name: type_name.0,
                values,
            },
            end,
        ))
    }
}

// The name of a value of the enumeration at an index of a table. None where the table has no such enumeration, or that no such value.
#[tactic(auto, using(crate::proofs::Values::value_refused))]
pub fn find_enumeration_value(
    cut: Cut,
    t: Table,
    index: usize,
    value: usize,
) -> Result<Option<Part>, DebugFault>
    ensures { found_by (debug_fault_of cut.entry.bytes.now) part_in no_entry result ≡ picked_value (by_place (place_of cut.entry)) cut.entry.bytes.now t.at t.count index value }
{
    let Some(entry) = find::<EnumerationEntry>(cut, t, index)? else {
        return Ok(None);
    };
    let Some(Name(text)) = find::<Name>(cut, entry.values, value)? else {
        return Ok(None);
    };
    Ok(Some(text))
}
