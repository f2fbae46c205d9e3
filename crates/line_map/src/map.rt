// The line map in the bytes of its section, and the choice of an entry in it.
#![tactic(auto)]

ghost use Rattle.std.specs.Prelude.{◌≡◌};
ghost use Rattle.std.proofs.Math.Option.{none};
ghost use Rattle.format.specs.Lines.{sorted, better};
ghost use Rattle.line_map.specs.Answers.{line_in, maybe_line};
ghost use Rattle.line_map.specs.Choice.{is_above, choice_of};
ghost use Rattle.line_map.specs.Map.{lines_of};

use crate::{LINE_MAP_ENTRY_SIZE, LineMapEntry, entry_of};
use base::id_types::FunctionId;

// The bytes of an entry. A map is a slice of them.
pub type Bytes = [u8; LINE_MAP_ENTRY_SIZE];

impl LineMapEntry {
    // What the map is sorted by.
    fn key(self) -> (u16, u16)
        ensures { result ≡ (self.function_id.0, self.bytecode_offset) }
    {
        (self.function_id.0, self.bytecode_offset)
    }
}

// Whether the key of `e` is above the query.
fn is_above(e: LineMapEntry, function_id: FunctionId, bytecode_offset: u16) -> bool
    ensures { result ≡ is_above function_id.0 bytecode_offset (line_in e) }
{
    (function_id.0, bytecode_offset) < e.key()
}

// The better of the best entry so far and a later candidate: the later one, unless its offset is lower.
fn better(best: Option<LineMapEntry>, e: LineMapEntry) -> Option<LineMapEntry>
    ensures { maybe_line result ≡ better (maybe_line best) (line_in e) }
{
    match best {
        Some(b) if e.bytecode_offset < b.bytecode_offset => Some(b),
        _ => Some(e),
    }
}

// Whether the keys never fall from one entry to the next.
pub fn never_falls(map: &[Bytes]) -> bool
    ensures { result ≡ sorted (lines_of map.now) }
{
    map.is_sorted_by_key(|row| entry_of(row).key())
}

// The entry for the query: a walk over a sorted map, which ends at the first entry whose key is above the query.
pub fn choose(map: &[Bytes], function_id: FunctionId, bytecode_offset: u16) -> Option<LineMapEntry>
    ensures { maybe_line result ≡ choice_of function_id.0 bytecode_offset none (lines_of map.now) }
{
    let mut i = 0;
    let mut best = None;
    // Kept: document 01 names this form, a loop that yields its candidate by break.
    loop {
        if i == map.len() {
            break best;
        }
        let e = entry_of(&map[i]);
        if is_above(e, function_id, bytecode_offset) {
            break best;
        }
        if e.function_id.0 == function_id.0 {
            best = better(best, e);
        }
        i += 1;
    }
}
