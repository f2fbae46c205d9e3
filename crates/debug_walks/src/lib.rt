// Walks over the tables in force of the debug section, entry by entry. A walk starts at a table that `debug_section::tables` answers; a step is total over
// any file, place and table: 10 over the file's limit, 15 where the section does not lie in the file behind the header or the entry does not read.
// Kept: one function for each table, which users call by these names; each is one call of a generic function.
#![tactic(auto)]

ghost use Rattle.std.specs.Prelude.{◌≡◌};
ghost use Rattle.format.specs.Parts.{by_place};
ghost use Rattle.format.specs.Debug.{line, name, variable, function_name, string_layout, source_file};
ghost use Rattle.base.specs.Answers.{next_from};
ghost use Rattle.base.specs.Section.{place_in, part_in};
ghost use Rattle.line_map.specs.Answers.{line_in};
ghost use Rattle.debug_entries.specs.Answers.{variable_in, function_name_in, string_layout_in, source_file_in, enumeration_in, enumeration_entry};
ghost use Rattle.debug_walks.specs.Steps.{debug_step_at};
ghost use Rattle.debug_walks.specs.Laws.{Laws};

use base::entry::{Entry, step};
use base::error::ContainerError;
use base::section::{Part, Section};
use debug_entries::enumerations::EnumerationEntry;
use debug_entries::function_names::FunctionNameEntry;
use debug_entries::source_files::SourceFileEntry;
use debug_entries::string_layouts::StringLayoutEntry;
use debug_entries::variables::VariableEntry;
use debug_section::debug_cut;
use debug_text::Name;
use line_map::LineMapEntry;
use reading::Table;

// The next entry of a walk, and the table of those behind it.
#[tactic(auto, using(crate::proofs::Steps::step_err))]
fn next<E: Entry>(
    file: &[u8],
    section: Section,
    t: Table,
) -> Result<Option<(E, Table)>, ContainerError>
where
    E::Error: Drop,
    ensures { next_from E.kept result ≡ debug_step_at file.now (place_in section) (E.reader (place_in section)) t }
{
    step::<E>(debug_cut(file, section)?, t).map_err(|_| ContainerError::NoDebug)
}

// The next line of a walk.
pub fn next_line(
    file: &[u8],
    section: Section,
    t: Table,
) -> Result<Option<(LineMapEntry, Table)>, ContainerError>
    ensures { next_from line_in result ≡ debug_step_at file.now (place_in section) line t }
{
    next(file, section, t)
}

// The next variable of a walk.
pub fn next_variable(
    file: &[u8],
    section: Section,
    t: Table,
) -> Result<Option<(VariableEntry, Table)>, ContainerError>
    ensures { next_from variable_in result ≡ debug_step_at file.now (place_in section) (variable (by_place (place_in section))) t }
{
    next(file, section, t)
}

// The next function name of a walk.
pub fn next_function_name(
    file: &[u8],
    section: Section,
    t: Table,
) -> Result<Option<(FunctionNameEntry, Table)>, ContainerError>
    ensures { next_from function_name_in result ≡ debug_step_at file.now (place_in section) (function_name (by_place (place_in section))) t }
{
    next(file, section, t)
}

// The next string layout of a walk.
pub fn next_string_layout(
    file: &[u8],
    section: Section,
    t: Table,
) -> Result<Option<(StringLayoutEntry, Table)>, ContainerError>
    ensures { next_from string_layout_in result ≡ debug_step_at file.now (place_in section) string_layout t }
{
    next(file, section, t)
}

// The next source file of a walk.
pub fn next_source_file(
    file: &[u8],
    section: Section,
    t: Table,
) -> Result<Option<(SourceFileEntry, Table)>, ContainerError>
    ensures { next_from source_file_in result ≡ debug_step_at file.now (place_in section) (source_file (by_place (place_in section))) t }
{
    next(file, section, t)
}

// The next enumeration of a walk.
pub fn next_enumeration(
    file: &[u8],
    section: Section,
    t: Table,
) -> Result<Option<(EnumerationEntry, Table)>, ContainerError>
    ensures { next_from enumeration_in result ≡ debug_step_at file.now (place_in section) (enumeration_entry section.offset (by_place (place_in section))) t }
{
    next(file, section, t)
}

// The next value name of a walk over the values of an enumeration.
pub fn next_value(
    file: &[u8],
    section: Section,
    t: Table,
) -> Result<Option<(Part, Table)>, ContainerError>
    ensures { next_from part_in result ≡ debug_step_at file.now (place_in section) (name (by_place (place_in section))) t }
{
    let found = next::<Name>(file, section, t)?;
    Ok(found.map(|(name, rest)| (name.0, rest)))
}

// The claims of `specs/Laws.antt` hold. Empty body: the contract makes the checker prove them.
pub fn laws_hold()
    ensures { Laws }
{}
