// Reading a container from a file.
#![tactic(auto)]

ghost use Rattle.std.specs.Prelude.{◌≡◌, ◌≤◌, length};
ghost use Rattle.format.specs.Parts.{limit, cut};
ghost use Rattle.format.specs.Load.{debug_found};
ghost use Rattle.format.specs.Record.{debug_counts, read_from, program_read};
ghost use Rattle.base.specs.Digest.{digest_bytes};
ghost use Rattle.base.specs.Answers.{as_it_is, got_from};
ghost use Rattle.base.specs.Section.{place_in};
ghost use Rattle.blake3.specs.Blake3.{blake3};
ghost use Rattle.header.specs.Answers.{header_in};
ghost use Rattle.task_table.specs.Answers.{task_counts_in};
ghost use Rattle.debug_tables.specs.Answers.{maybe_debug, rows_in_force};
ghost use Rattle.record.specs.Answers.{maybe_types, container_in};
ghost use Rattle.container.specs.Answers.{debug_state_in};
ghost use Rattle.container.specs.Sections.{Accepted, task_counts_at, type_counts_at, type_counts_of, constant_count_at, code_reads_at, section_state, debug_state_of, in_force_at};
ghost use Rattle.container.specs.PlaceTold.{PlaceTold};
ghost use Rattle.container.specs.Independence.{SameRun, DebugAlike};
ghost use Rattle.container.specs.Examples.{Examples};

use base::section::section_cut;
use debug_tables::in_force::rows_in_force;
use header::{from_bytes, has_types};
use integrity::{check_content_hash, debug_hash_matches};

// What a program needs besides `read_from`: records, entries, answers, identifiers, the steps of walks, which start at the record, and BLAKE3 of any bytes.
pub use base::char_width::{CharWidth, InvalidCharWidth};
pub use base::const_type::ConstType;
pub use base::digest::{Digest, HASH_LEN, NO_HASH};
pub use base::error::{ContainerError, Values};
pub use base::field_type::FieldType;
pub use base::id_types::{
    ConstantIndex, FbTypeId, FunctionId, InstanceId, SourceColumn, SourceFileId, SourceLine,
    TaskId, VarIndex,
};
pub use base::section::{FILE_LIMIT, PROGRAM_LIMIT, Part, Section};
pub use base::task_type::TaskType;
pub use blake3::hash;
pub use code_section::{FuncEntry, next_function};
pub use constant_pool::{ConstEntry, Kept, next_constant, number_bytes};
pub use debug_entries::enumerations::EnumerationEntry;
pub use debug_entries::function_names::FunctionNameEntry;
pub use debug_entries::source_files::SourceFileEntry;
pub use debug_entries::string_layouts::StringLayoutEntry;
pub use debug_entries::variables::VariableEntry;
pub use debug_entries::{iec_type_tag, var_section};
pub use debug_tables::in_force::{RowsInForce, TableRow, none_in_force};
pub use debug_tables::{DebugCounts, DebugTables, SixTags, TableKind};
pub use debug_text::DebugFault;
pub use debug_walks::{
    next_enumeration, next_function_name, next_line, next_source_file, next_string_layout,
    next_value, next_variable,
};
pub use header::{FileHeader, Reserved, RuntimeParameters, SectionDirectory};
pub use line_map::LineMapEntry;
pub use reading::Table;
pub use record::Container;
pub use task_table::{ProgramInstanceEntry, TaskCounts, TaskEntry, next_program, next_task};
pub use type_entries::{ArrayDescriptor, FbTypeDescriptor, FieldEntry, UserFbDescriptor};
pub use type_section::{TypeCounts, next_array, next_fb_type, next_field, next_user_fb};

// The state of a file's debug section, by document 01's tests in its order; the container loads with debug only in the last.
#[derive(Clone, Copy)]
pub enum DebugState {
    // Its size is 0.
    Empty,
    // It does not lie in the file behind the header, or the file is over the limit.
    Outside,
    // The header's debug hash is neither zero nor the section's.
    HashDiffers,
    // Why it does not read: it ends too early, or the place in it of a text's first bad byte.
    Unreadable(DebugFault),
    // How many entries its tables in force have.
    Read(DebugCounts),
}

// Each section is handed on as the part of the file that starts at its offset and has its size.
// Kept: one function for each, since their readers answer other types, one takes a count, and types may be absent.
#[tactic(auto, using(base::proofs::FileLookups::lookup_err, base::proofs::FileLookups::lookup_ok))]
fn tasks_at(file: &[u8], section: Section) -> Result<TaskCounts, ContainerError>
    ensures { got_from task_counts_in result ≡ task_counts_at file.now (place_in section) }
{
    task_table::read_from(section_cut(file, section)?.bytes)
}

fn types_at(file: &[u8], section: Section) -> Result<Option<TypeCounts>, ContainerError>
    requires { length file.now ≤ limit }
    ensures { got_from maybe_types result ≡ type_counts_at file.now (place_in section) }
{
    match section_cut(file, section) {
        Ok(cut) => Ok(Some(type_section::read_from(cut.bytes)?)),
        Err(_) => Ok(None),
    }
}

#[tactic(auto, using(base::proofs::FileLookups::lookup_err, base::proofs::FileLookups::lookup_ok))]
fn constants_at(file: &[u8], section: Section) -> Result<u16, ContainerError>
    ensures { got_from as_it_is result ≡ constant_count_at file.now (place_in section) }
{
    constant_pool::read_from(section_cut(file, section)?.bytes)
}

#[tactic(auto, using(base::proofs::FileLookups::lookup_err, base::proofs::FileLookups::lookup_ok))]
fn code_at(file: &[u8], section: Section, num_functions: u16) -> Result<(), ContainerError>
    ensures { got_from as_it_is result ≡ code_reads_at file.now (place_in section) num_functions }
{
    code_section::read_from(section_cut(file, section)?.bytes, num_functions)
}

// Types are read only if their flag is set and their size is above 0.
fn types_of(file: &[u8], header: FileHeader) -> Result<Option<TypeCounts>, ContainerError>
    requires { length file.now ≤ limit }
    ensures { got_from maybe_types result ≡ type_counts_of file.now (header_in header) }
{
    let types = header.sections.type_section;
    if types.size == 0 {
        return Ok(None);
    }
    if has_types(header.flags) {
        return types_at(file, types);
    }
    Ok(None)
}

// The state of a debug section that lies in the file behind the header: by its hash, then by its reader.
fn section_state(section: &[u8], debug_hash: Digest) -> DebugState
    ensures { debug_state_in section.now result ≡ section_state (digest_bytes debug_hash) section.now }
{
    if debug_hash_matches(debug_hash, section) {
        return match debug_tables::read_from(section) {
            Ok(counts) => DebugState::Read(counts),
            Err(fault) => DebugState::Unreadable(fault),
        };
    }
    DebugState::HashDiffers
}

// The state of a file's debug section: size, place, hash, then what its reader answers. The flag is not asked.
pub fn debug_state(file: &[u8], header: FileHeader) -> DebugState
    ensures { debug_state_in (cut file.now (header_in header).directory.debug) result ≡ debug_state_of file.now (header_in header) }
{
    let debug = header.sections.debug_section;
    if debug.size == 0 {
        return DebugState::Empty;
    }
    match section_cut(file, debug) {
        Ok(cut) => section_state(cut.bytes, header.debug_hash),
        Err(_) => DebugState::Outside,
    }
}

// What loading keeps of the debug section.
fn debug_of(file: &[u8], header: FileHeader) -> Option<DebugCounts>
    requires { length file.now ≤ limit }
    ensures { maybe_debug result ≡ debug_counts (debug_found blake3 file.now (header_in header)) }
{
    match debug_state(file, header) {
        DebugState::Read(counts) => Some(counts),
        _ => None,
    }
}

// The rows of the debug section's tables in force; none where no debug was loaded.
fn in_force_of(file: &[u8], section: Section, debug: Option<DebugCounts>) -> RowsInForce
    ensures { rows_in_force result ≡ in_force_at file.now (place_in section) (maybe_debug debug) }
{
    match debug {
        Some(_) => match section_cut(file, section) {
            Ok(cut) => rows_in_force(cut.bytes),
            Err(_) => none_in_force(),
        },
        None => none_in_force(),
    }
}

// The sections of a file whose header is accepted: tasks, types, constants, code, debug.
fn read_sections(file: &[u8], header: FileHeader) -> Result<Container, ContainerError>
    requires { Accepted file.now (header_in header) }
    ensures { got_from container_in result ≡ read_from blake3 file.now }
{
    let sections = header.sections;
    let tasks = tasks_at(file, sections.task_section)?;
    let types = types_of(file, header)?;
    let constants = constants_at(file, sections.const_section)?;
    code_at(file, sections.code_section, header.runtime.num_functions)?;
    let debug = debug_of(file, header);
    let in_force = in_force_of(file, sections.debug_section, debug);
    Ok(Container {
        header,
        tasks,
        types,
        constants,
        debug,
        in_force,
    })
}

// A container from a file: length, header, content hash, then the sections. The first fault met decides.
pub fn read_from(file: &[u8]) -> Result<Container, ContainerError>
    ensures { got_from container_in result ≡ read_from blake3 file.now }
{
    if file.len() > FILE_LIMIT {
        return Err(ContainerError::TooLong);
    }
    let header = from_bytes(file)?;
    check_content_hash(file, header)?;
    read_sections(file, header)
}

// The same for a program: 10 for a file above the programs' limit, before any other fault, and else what the library answers.
pub fn read_for_program(file: &[u8]) -> Result<Container, ContainerError>
    ensures { got_from container_in result ≡ program_read blake3 file.now }
{
    if file.len() > PROGRAM_LIMIT {
        return Err(ContainerError::TooLong);
    }
    read_from(file)
}

// The place of a bad text that `debug_state` tells is the one that the record's `bad_place` answers.
pub fn place_told(file: &[u8], header: FileHeader)
    ensures { PlaceTold file.now (header_in header) }
{}

// Demand 3, for any two files. Empty bodies: each contract makes the checker prove a half of it.
pub fn same_run(f: &[u8], g: &[u8])
    ensures { SameRun f.now g.now }
{}

pub fn same_debug(f: &[u8], g: &[u8])
    ensures { DebugAlike f.now g.now }
{}

// Neither half is vacuous.
pub fn examples_hold()
    ensures { Examples }
{}
