// The debug section of a file: where its tables in force stand, and lookups in them. A lookup reads the section again and trusts no count: 10 over
// the file's limit, 15 where the section does not lie in the file behind the header or does not read, then the lookup's own refusal.
// Kept: one function for each table, which users call by these names; each is one call of a generic function.
#![tactic(auto)]

ghost use Rattle.std.specs.Prelude.{◌≡◌};
ghost use Rattle.requests.specs.BadPlace.{bad_place_at};
ghost use Rattle.base.specs.Answers.{as_it_is, got_from};
ghost use Rattle.base.specs.Cut.{cut_in};
ghost use Rattle.base.specs.Section.{place_in, part_in, PartWithin};
ghost use Rattle.line_map.specs.Answers.{line_in};
ghost use Rattle.debug_entries.specs.Answers.{variable_in, function_name_in, string_layout_in, source_file_in, enumeration_in};
ghost use Rattle.debug_tables.specs.Answers.{bad_place_in};
ghost use Rattle.debug_section.specs.Lookups.{debug_part, debug_cut, opened_at, starts_at, answers_at, enumeration_at};
ghost use Rattle.debug_section.specs.Laws.{Laws};
ghost use Rattle.debug_section.specs.Answers.{opened_in, StartsInside, answered};

use base::cut::Cut;
use base::entry::find;
use base::error::ContainerError;
use base::id_types::{FunctionId, SourceFileId};
use base::section::{FILE_LIMIT, Part, Section, section_part};
use debug_entries::enumerations::{EnumerationEntry, find_enumeration_value};
use debug_entries::function_names::FunctionNameEntry;
use debug_entries::source_files::SourceFileEntry;
use debug_entries::string_layouts::StringLayoutEntry;
use debug_entries::variables::VariableEntry;
use debug_tables::{DebugTables, tables_of};
use debug_text::DebugFault;
use line_map::LineMapEntry;

// The part of the file that the section occupies.
#[tactic(auto, using(crate::proofs::Parts::part_long, crate::proofs::Parts::part_out, crate::proofs::Parts::part_in))]
pub fn debug_part(file: &[u8], section: Section) -> Result<Part, ContainerError>
    ensures { (got_from part_in result ≡ debug_part file.now (place_in section)) × PartWithin file.now result }
{
    if file.len() > FILE_LIMIT {
        return Err(ContainerError::TooLong);
    }
    section_part(file, section).map_err(|_| ContainerError::NoDebug)
}

// The same with its bytes.
pub fn debug_cut(file: &[u8], section: Section) -> Result<Cut, ContainerError>
    ensures { got_from cut_in result ≡ debug_cut file.now (place_in section) }
{
    let p = debug_part(file, section)?;
    Ok(Cut {
        bytes: &file[p.offset..p.offset + p.size],
        offset: p.offset,
    })
}

// The section's bytes, and where the tables in force stand in them.
fn opened(file: &[u8], section: Section) -> Result<(Cut, DebugTables), ContainerError>
    ensures { got_from opened_in result ≡ opened_at file.now (place_in section) }
{
    let cut = debug_cut(file, section)?;
    let tables = tables_of(cut.bytes).map_err(|_| ContainerError::NoDebug)?;
    Ok((cut, tables))
}

// The tables in force.
pub fn tables(file: &[u8], section: Section) -> Result<DebugTables, ContainerError>
    ensures { (got_from as_it_is result ≡ starts_at file.now (place_in section)) × StartsInside file.now (place_in section) result }
{
    Ok(opened(file, section)?.1)
}

// The section's bad place; none over the file's limit, or where the section does not lie in the file behind the header.
#[tactic(auto, using(crate::proofs::Parts::place_err))]
pub fn bad_place(file: &[u8], section: Section) -> Option<usize>
    ensures { bad_place_in result ≡ bad_place_at file.now (place_in section) }
{
    match debug_cut(file, section) {
        Ok(cut) => debug_tables::bad_place(cut.bytes),
        Err(_) => None,
    }
}

// What a lookup in a table answers: 15 where the table does not read, 29 where it has no such entry.
fn answered<T>(found: Result<Option<T>, DebugFault>) -> Result<T, ContainerError>
    ensures { result ≡ answered found }
{
    found
        .map_err(|_| ContainerError::NoDebug)?
        .ok_or(ContainerError::NoEntry)
}

// The source location of a function's bytecode offset: 14 if the lines are not sorted, 13 if there is none.
#[tactic(auto, using(crate::proofs::Lookups::look_err))]
pub fn lookup_source_location(
    file: &[u8],
    section: Section,
    function_id: FunctionId,
    bytecode_offset: u16,
) -> Result<LineMapEntry, ContainerError>
    ensures { got_from line_in result ≡ (answers_at file.now (place_in section)).source_line function_id.0 bytecode_offset }
{
    let (cut, t) = opened(file, section)?;
    line_map::lookup_source_location(cut.bytes, t.lines, function_id, bytecode_offset)
}

// The line at a position of the line map.
#[tactic(auto, using(crate::proofs::Lookups::look_err))]
pub fn line(file: &[u8], section: Section, index: u16) -> Result<LineMapEntry, ContainerError>
    ensures { got_from line_in result ≡ (answers_at file.now (place_in section)).line index }
{
    let (cut, t) = opened(file, section)?;
    line_map::line(cut.bytes, t.lines, index as usize)
}

// The variable at a position of its table: its index, function, section, type, name and type name.
#[tactic(auto, using(crate::proofs::Lookups::look_err))]
pub fn variable(file: &[u8], section: Section, index: u16) -> Result<VariableEntry, ContainerError>
    ensures { got_from variable_in result ≡ (answers_at file.now (place_in section)).variable index }
{
    let (cut, t) = opened(file, section)?;
    answered(find(cut, t.variables, index as usize))
}

// The function name at a position of its table, with the function's id.
#[tactic(auto, using(crate::proofs::Lookups::look_err))]
pub fn function_name(
    file: &[u8],
    section: Section,
    index: u16,
) -> Result<FunctionNameEntry, ContainerError>
    ensures { got_from function_name_in result ≡ (answers_at file.now (place_in section)).function_name index }
{
    let (cut, t) = opened(file, section)?;
    answered(find(cut, t.functions, index as usize))
}

// The string layout at a position of its table: where a string variable lies in the data region, and how long it may get.
#[tactic(auto, using(crate::proofs::Lookups::look_err))]
pub fn string_layout(
    file: &[u8],
    section: Section,
    index: u16,
) -> Result<StringLayoutEntry, ContainerError>
    ensures { got_from string_layout_in result ≡ (answers_at file.now (place_in section)).string_layout index }
{
    let (cut, t) = opened(file, section)?;
    answered(find(cut, t.strings, index as usize))
}

// The source file at a position of its table: its path and hash.
#[tactic(auto, using(crate::proofs::Lookups::look_err))]
pub fn source_file(
    file: &[u8],
    section: Section,
    file_id: SourceFileId,
) -> Result<SourceFileEntry, ContainerError>
    ensures { got_from source_file_in result ≡ (answers_at file.now (place_in section)).source_file file_id.0 }
{
    let (cut, t) = opened(file, section)?;
    answered(find(cut, t.files, file_id.0 as usize))
}

// The enumeration at a position of its table: its name, and where the names of its values stand in the section.
#[tactic(auto, using(crate::proofs::Lookups::enumeration_err))]
pub fn enumeration(
    file: &[u8],
    section: Section,
    index: u16,
) -> Result<EnumerationEntry, ContainerError>
    ensures { got_from enumeration_in result ≡ enumeration_at file.now (place_in section) index }
{
    let (cut, t) = opened(file, section)?;
    answered(find(cut, t.enumerations, index as usize))
}

// The name of a value of an enumeration.
#[tactic(auto, using(crate::proofs::Lookups::look_err))]
pub fn enumeration_value(
    file: &[u8],
    section: Section,
    index: u16,
    value: u16,
) -> Result<Part, ContainerError>
    ensures { got_from part_in result ≡ (answers_at file.now (place_in section)).enumeration_value index value }
{
    let (cut, t) = opened(file, section)?;
    answered(find_enumeration_value(cut, t.enumerations, index as usize, value as usize))
}

// The claims of `specs/Laws.antt` hold. Empty body: the contract makes the checker prove them.
pub fn laws_hold()
    ensures { Laws }
{}
