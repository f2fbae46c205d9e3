// The debug section's line map, and the lookup of a source location in it. `s` is the section, and `t` says where the map stands in it and how many entries it has.
#![tactic(auto)]

ghost use Rattle.std.specs.Prelude.{◌≡◌};
ghost use Rattle.std.proofs.Common.{rules};
ghost use Rattle.reading.proofs.Left.{stays-local};
ghost use Rattle.reading.proofs.Width.{fixed-width};
ghost use Rattle.format.specs.Debug.{Line, line};
ghost use Rattle.format.proofs.Readers.{local-line};
ghost use Rattle.format.proofs.Widths.{line-fixed};
ghost use Rattle.base.specs.Answers.{got_from};
ghost use Rattle.base.specs.Error.{fault_of};
ghost use Rattle.line_map.specs.Answers.{line_in};
ghost use Rattle.line_map.specs.Lookups.{line_map_entry_size, is_sorted, source_line_in, line_of_map};
ghost use Rattle.line_map.specs.Map.{line_of, lines_of, lines_at};
ghost use Rattle.line_map.specs.Laws.{Laws};

mod map;

use crate::map::{Bytes, choose, never_falls};
use base::cut::Cut;
use base::entry::{Entry, OneWidth, Plain};
use base::error::ContainerError;
use base::id_types::{FunctionId, SourceColumn, SourceFileId, SourceLine};
use reading::{Table, u16_at};

pub const LINE_MAP_ENTRY_SIZE: usize = 10;

// An entry of the line map: the source line and column that a function's bytecode comes from, from an offset on.
#[derive(Clone, Copy)]
pub struct LineMapEntry {
    pub function_id: FunctionId,
    pub bytecode_offset: u16,
    pub file_id: SourceFileId,
    pub source_line: SourceLine,
    pub source_column: SourceColumn,
}

// The entry of these bytes.
fn entry_of(row: &Bytes) -> LineMapEntry
    ensures { line_in result ≡ line_of row.now }
{
    LineMapEntry {
        function_id: FunctionId(u16_at(row, 0)),
        bytecode_offset: u16_at(row, 2),
        file_id: SourceFileId(u16_at(row, 4)),
        source_line: SourceLine(u16_at(row, 6)),
        source_column: SourceColumn(u16_at(row, 8)),
    }
}

impl Entry for LineMapEntry {
    type Error = ContainerError;

    ghost Kept = { Line };

    ghost kept = { line_in };

    ghost told = { λ _. fault_of };

    ghost reader = { λ _. line };

    ghost stays = { λ _ s. stays-local s local-line };

    fn read(cut: Cut, at: usize) -> Result<(Self, usize), ContainerError> {
        let Some(row) = cut.bytes[at.min(cut.bytes.len())..].first_chunk() else {
            return Err(ContainerError::ShortInput);
        };
        Ok((entry_of(row), at + LINE_MAP_ENTRY_SIZE))
    }
}

impl OneWidth for LineMapEntry {
    const WIDTH: usize = LINE_MAP_ENTRY_SIZE;

    ghost WIDTH = { line_map_entry_size };

    ghost width = { λ _. (Prim.search rules, fixed-width line-fixed) };
}

impl Plain for LineMapEntry {
    ghost fixed = { λ _. line-fixed };
}

// The map that is this table.
fn map_at(s: &[u8], t: Table) -> Result<&[Bytes], ContainerError>
    ensures { got_from (λ map. lines_of map.now) result ≡ lines_at s.now t.at t.count }
{
    let (rows, _) = s[t.at.min(s.len())..].as_chunks();
    rows.get(..t.count).ok_or(ContainerError::ShortInput)
}

// Whether the map is sorted. A map that the section does not hold whole is not.
pub fn is_sorted(s: &[u8], t: Table) -> bool
    ensures { result ≡ is_sorted s.now t.at t.count }
{
    match map_at(s, t) {
        Ok(map) => never_falls(map),
        Err(_) => false,
    }
}

// The source location of an offset in a function's bytecode: the function's last entry with the greatest offset not above it.
pub fn lookup_source_location(
    s: &[u8],
    t: Table,
    function_id: FunctionId,
    bytecode_offset: u16,
) -> Result<LineMapEntry, ContainerError>
    ensures { got_from line_in result ≡ source_line_in s.now t.at t.count function_id.0 bytecode_offset }
{
    let map = map_at(s, t)?;
    if !never_falls(map) {
        return Err(ContainerError::UnsortedMap);
    }
    choose(map, function_id, bytecode_offset).ok_or(ContainerError::NoLine)
}

// The entry at an index of the map.
pub fn line(s: &[u8], t: Table, k: usize) -> Result<LineMapEntry, ContainerError>
    ensures { got_from line_in result ≡ line_of_map s.now t.at t.count k }
{
    let Some(row) = map_at(s, t)?.get(k) else {
        return Err(ContainerError::NoEntry);
    };
    Ok(entry_of(row))
}

// The claims of `specs/Laws.antt` hold. Empty body: the contract makes the checker prove them.
pub fn laws_hold()
    ensures { Laws }
{}
