// The text of whole tables of a file, in a buffer that the caller lends. Each function writes the lines of a table's entries, one behind the other,
// at the place `at`, and returns the place behind them, or that they do not fit; it writes none if the section is absent or refused.
// Kept: one function for each table, which users call by these names; each is one call of a generic function.
#![tactic(auto)]

mod listed;
mod walk;

ghost use Rattle.std.specs.Prelude.{◌≡◌};
ghost use Rattle.base.specs.Answers.{as_it_is, got_from};
ghost use Rattle.lent.specs.Output.{PutsRestFree};
ghost use Rattle.record.specs.Answers.{container_in};
ghost use Rattle.table_lines.specs.Walks.{lines_start_in};
ghost use Rattle.table_lines.specs.Tables.{tasks_text, programs_text, fb_types_text, arrays_text, user_fbs_text, constants_text, functions_text, lines_text};
ghost use Rattle.table_lines.specs.Laws.{Laws};

use crate::listed::FbTypeWithFields;
use crate::walk::put_from;
use base::error::ContainerError;
use code_section::FuncEntry;
use constant_pool::ConstEntry;
use line_map::LineMapEntry;
use reading::Table;
use record::Container;
use task_table::{ProgramInstanceEntry, TaskEntry};
use type_entries::{ArrayDescriptor, UserFbDescriptor};

// The tasks.
pub fn put_tasks(out: &mut [u8], at: usize, file: &[u8], c: Container) -> Option<usize>
    ensures { PutsRestFree out.old at (tasks_text file.now (container_in c)) out.new result }
{
    let section = c.header.sections.task_section;
    put_from::<TaskEntry>(out, at, file, section, c.tasks(file))
}

// The program instances.
pub fn put_programs(out: &mut [u8], at: usize, file: &[u8], c: Container) -> Option<usize>
    ensures { PutsRestFree out.old at (programs_text file.now (container_in c)) out.new result }
{
    let section = c.header.sections.task_section;
    put_from::<ProgramInstanceEntry>(out, at, file, section, c.programs(file))
}

// The FB types, each followed by its fields.
pub fn put_fb_types(out: &mut [u8], at: usize, file: &[u8], c: Container) -> Option<usize>
    ensures { PutsRestFree out.old at (fb_types_text file.now (container_in c)) out.new result }
{
    let section = c.header.sections.type_section;
    put_from::<FbTypeWithFields>(out, at, file, section, c.fb_types(file))
}

// The arrays, by their indices.
pub fn put_arrays(out: &mut [u8], at: usize, file: &[u8], c: Container) -> Option<usize>
    ensures { PutsRestFree out.old at (arrays_text file.now (container_in c)) out.new result }
{
    let section = c.header.sections.type_section;
    put_from::<ArrayDescriptor>(out, at, file, section, c.arrays(file))
}

// The user FBs.
pub fn put_user_fbs(out: &mut [u8], at: usize, file: &[u8], c: Container) -> Option<usize>
    ensures { PutsRestFree out.old at (user_fbs_text file.now (container_in c)) out.new result }
{
    let section = c.header.sections.type_section;
    put_from::<UserFbDescriptor>(out, at, file, section, c.user_fbs(file))
}

// The constants, by their indices.
pub fn put_constants(out: &mut [u8], at: usize, file: &[u8], c: Container) -> Option<usize>
    ensures { PutsRestFree out.old at (constants_text file.now (container_in c)) out.new result }
{
    let section = c.header.sections.const_section;
    put_from::<ConstEntry>(out, at, file, section, c.constants(file))
}

// The functions.
pub fn put_functions(out: &mut [u8], at: usize, file: &[u8], c: Container) -> Option<usize>
    ensures { PutsRestFree out.old at (functions_text file.now (container_in c)) out.new result }
{
    let section = c.header.sections.code_section;
    put_from::<FuncEntry>(out, at, file, section, c.functions(file))
}

// Where a walk over the lines of the debug section starts.
fn lines(file: &[u8], c: Container) -> Result<Table, ContainerError>
    ensures { got_from as_it_is result ≡ lines_start_in file.now (container_in c) }
{
    Ok(c.debug_tables(file)?.lines)
}

// The lines of the debug section.
pub fn put_lines(out: &mut [u8], at: usize, file: &[u8], c: Container) -> Option<usize>
    ensures { PutsRestFree out.old at (lines_text file.now (container_in c)) out.new result }
{
    let section = c.header.sections.debug_section;
    put_from::<LineMapEntry>(out, at, file, section, lines(file, c))
}

// The claim of `specs/Laws.antt` holds. Empty body: the contract makes the checker prove it.
pub fn laws_hold()
    ensures { Laws }
{}
