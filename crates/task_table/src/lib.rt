// The task section: a header of two counts and the shared globals size, then the tasks, then the program instances.
// Kept: one function for each table, which users call by these names; each is one call of a generic function.
#![tactic(auto)]

ghost use Rattle.std.specs.Prelude.{◌≡◌, ◌+◌, ◌≤◌, length, drop};
ghost use Rattle.reading.specs.Numbers.{le_at};
ghost use Rattle.std.proofs.Common.{rules};
ghost use Rattle.reading.specs.Reader.{got};
ghost use Rattle.reading.proofs.Left.{stays-local};
ghost use Rattle.reading.proofs.Width.{fixed-width};
ghost use Rattle.format.specs.Tasks.{Task, task, Program, program};
ghost use Rattle.format.proofs.Readers.{local-task, local-program};
ghost use Rattle.format.proofs.Widths.{task-width, program-fixed};
ghost use Rattle.base.specs.Answers.{as_it_is, got_from, next_from};
ghost use Rattle.base.specs.Error.{fault_of};
ghost use Rattle.base.specs.Small.{task_type_number};
ghost use Rattle.base.specs.Section.{place_in};
ghost use Rattle.task_table.specs.Answers.{task_in, program_in, task_counts_in};
ghost use Rattle.task_table.specs.Lookups.{task_entry_size, program_instance_entry_size, task_counts_inside, task_entries, program_entries, task_inside, program_inside, task_at, program_at, tasks_at, programs_at, next_task_at, next_program_at};
ghost use Rattle.task_table.specs.Laws.{Laws};

use base::cut::Cut;
use base::entry::{Entry, OneWidth, Plain, find_by_width, pass, skip, step};
use base::error::ContainerError;
use base::id_types::{FunctionId, InstanceId, TaskId, VarIndex};
use base::section::{Section, section_cut};
use base::task_type::TaskType;
use reading::{Table, u8_at, u16_at, u32_at, u64_at};

// The counts of tasks and programs and the shared globals size, two bytes each.
const TASK_TABLE_HEADER_SIZE: usize = 6;

const TASK_ENTRY_SIZE: usize = 32;

const PROGRAM_INSTANCE_ENTRY_SIZE: usize = 16;

// A task. `reserved` holds its four reserved bytes, low byte first.
#[derive(Clone, Copy)]
pub struct TaskEntry {
    pub task_id: TaskId,
    pub priority: u16,
    pub task_type: TaskType,
    pub flags: u8,
    pub interval_us: u64,
    pub single_var_index: VarIndex,
    pub watchdog_us: u64,
    pub input_image_offset: u16,
    pub output_image_offset: u16,
    pub reserved: u32,
}

// A program instance.
#[derive(Clone, Copy)]
pub struct ProgramInstanceEntry {
    pub instance_id: InstanceId,
    pub task_id: TaskId,
    pub entry_function_id: FunctionId,
    pub var_table_offset: u16,
    pub var_table_count: u16,
    pub fb_instance_offset: u16,
    pub fb_instance_count: u16,
    pub init_function_id: FunctionId,
}

// What the section's header says.
#[derive(Clone, Copy)]
pub struct TaskCounts {
    pub shared_globals_size: u16,
    pub tasks: u16,
    pub programs: u16,
}

// The task at the place `at` of the section `s`, whose type is already read.
fn task_at(s: &[u8], at: usize, task_type: TaskType) -> TaskEntry
    requires { (at + task_entry_size ≤ length s.now) × (task_type_number task_type ≡ le_at 1 s.now (at + 4)) }
    ensures { task (drop at s.now) ≡ got (task_in result) (drop (at + task_entry_size) s.now) }
{
    TaskEntry {
        task_id: TaskId(u16_at(s, at)),
        priority: u16_at(s, at + 2),
        task_type,
        flags: u8_at(s, at + 5),
        interval_us: u64_at(s, at + 6),
        single_var_index: VarIndex(u16_at(s, at + 14)),
        watchdog_us: u64_at(s, at + 16),
        input_image_offset: u16_at(s, at + 24),
        output_image_offset: u16_at(s, at + 26),
        reserved: u32_at(s, at + 28),
    }
}

impl Entry for TaskEntry {
    type Error = ContainerError;

    ghost Kept = { Task };

    ghost kept = { task_in };

    ghost told = { λ _. fault_of };

    ghost reader = { λ _. task };

    ghost stays = { λ _ s. stays-local s local-task };

    // All its bytes must be there before its type is checked.
    fn read(cut: Cut, at: usize) -> Result<(Self, usize), ContainerError> {
        if cut.left(at) < TASK_ENTRY_SIZE {
            return Err(ContainerError::ShortInput);
        }
        let task_type = TaskType::try_from(u8_at(cut.bytes, at + 4))?;
        Ok((task_at(cut.bytes, at, task_type), at + TASK_ENTRY_SIZE))
    }
}

impl OneWidth for TaskEntry {
    const WIDTH: usize = TASK_ENTRY_SIZE;

    ghost WIDTH = { task_entry_size };

    ghost width = { λ _. (Prim.search rules, task-width) };
}

// The program instance at the place `at`.
fn program_at(s: &[u8], at: usize) -> ProgramInstanceEntry
    requires { at + program_instance_entry_size ≤ length s.now }
    ensures { program (drop at s.now) ≡ got (program_in result) (drop (at + program_instance_entry_size) s.now) }
{
    ProgramInstanceEntry {
        instance_id: InstanceId(u16_at(s, at)),
        task_id: TaskId(u16_at(s, at + 2)),
        entry_function_id: FunctionId(u16_at(s, at + 4)),
        var_table_offset: u16_at(s, at + 6),
        var_table_count: u16_at(s, at + 8),
        fb_instance_offset: u16_at(s, at + 10),
        fb_instance_count: u16_at(s, at + 12),
        init_function_id: FunctionId(u16_at(s, at + 14)),
    }
}

impl Entry for ProgramInstanceEntry {
    type Error = ContainerError;

    ghost Kept = { Program };

    ghost kept = { program_in };

    ghost told = { λ _. fault_of };

    ghost reader = { λ _. program };

    ghost stays = { λ _ s. stays-local s local-program };

    fn read(cut: Cut, at: usize) -> Result<(Self, usize), ContainerError> {
        if cut.left(at) < PROGRAM_INSTANCE_ENTRY_SIZE {
            return Err(ContainerError::ShortInput);
        }
        Ok((program_at(cut.bytes, at), at + PROGRAM_INSTANCE_ENTRY_SIZE))
    }
}

impl OneWidth for ProgramInstanceEntry {
    const WIDTH: usize = PROGRAM_INSTANCE_ENTRY_SIZE;

    ghost WIDTH = { program_instance_entry_size };

    ghost width = { λ _. (Prim.search rules, fixed-width program-fixed) };
}

impl Plain for ProgramInstanceEntry {
    ghost fixed = { λ _. program-fixed };
}

// The section's reader. Each task is checked; no program can be refused, so only their bytes must be present.
pub fn read_from(s: &[u8]) -> Result<TaskCounts, ContainerError>
    ensures { got_from task_counts_in result ≡ task_counts_inside s.now }
{
    let cut = Cut::of(s);
    if cut.left(0) < TASK_TABLE_HEADER_SIZE {
        return Err(ContainerError::ShortInput);
    }
    let tasks = u16_at(cut.bytes, 0);
    let programs = u16_at(cut.bytes, 2);
    let shared_globals_size = u16_at(cut.bytes, 4);
    let p = skip::<TaskEntry>(cut, TASK_TABLE_HEADER_SIZE, tasks as usize)?;
    pass::<ProgramInstanceEntry>(cut, p, programs as usize).ok_or(ContainerError::ShortInput)?;
    Ok(TaskCounts {
        shared_globals_size,
        tasks,
        programs,
    })
}

// The table of the tasks.
fn task_entries(counts: TaskCounts) -> Table
    ensures { result ≡ task_entries (task_counts_in counts) }
{
    Table {
        at: TASK_TABLE_HEADER_SIZE,
        count: counts.tasks as usize,
    }
}

// The table of the programs, which stands behind the tasks.
fn program_entries(counts: TaskCounts) -> Table
    ensures { result ≡ program_entries (task_counts_in counts) }
{
    Table {
        at: TASK_TABLE_HEADER_SIZE + TASK_ENTRY_SIZE * (counts.tasks as usize),
        count: counts.programs as usize,
    }
}

// The task at an index of the section.
fn find_task(cut: Cut, index: u16) -> Result<TaskEntry, ContainerError>
    ensures { got_from task_in result ≡ task_inside cut.entry.bytes.now index }
{
    let tasks = task_entries(read_from(cut.bytes)?);
    find_by_width(cut, tasks, index)?.ok_or(ContainerError::NoEntry)
}

// The program instance at an index of the section.
fn find_program(cut: Cut, index: u16) -> Result<ProgramInstanceEntry, ContainerError>
    ensures { got_from program_in result ≡ program_inside cut.entry.bytes.now index }
{
    let programs = program_entries(read_from(cut.bytes)?);
    find_by_width(cut, programs, index)?.ok_or(ContainerError::NoEntry)
}

// The task at an index.
#[tactic(auto, using(base::proofs::FileLookups::lookup_err, base::proofs::FileLookups::lookup_ok))]
pub fn task(file: &[u8], section: Section, index: u16) -> Result<TaskEntry, ContainerError>
    ensures { got_from task_in result ≡ task_at file.now (place_in section) index }
{
    find_task(section_cut(file, section)?, index)
}

// The program instance at an index.
#[tactic(auto, using(base::proofs::FileLookups::lookup_err, base::proofs::FileLookups::lookup_ok))]
pub fn program(
    file: &[u8],
    section: Section,
    index: u16,
) -> Result<ProgramInstanceEntry, ContainerError>
    ensures { got_from program_in result ≡ program_at file.now (place_in section) index }
{
    find_program(section_cut(file, section)?, index)
}

// Where a walk over the tasks starts.
#[tactic(auto, using(base::proofs::FileLookups::lookup_err, base::proofs::FileLookups::lookup_ok))]
pub fn tasks(file: &[u8], section: Section) -> Result<Table, ContainerError>
    ensures { got_from as_it_is result ≡ tasks_at file.now (place_in section) }
{
    Ok(task_entries(read_from(section_cut(file, section)?.bytes)?))
}

// Where a walk over the programs starts.
#[tactic(auto, using(base::proofs::FileLookups::lookup_err, base::proofs::FileLookups::lookup_ok))]
pub fn programs(file: &[u8], section: Section) -> Result<Table, ContainerError>
    ensures { got_from as_it_is result ≡ programs_at file.now (place_in section) }
{
    Ok(program_entries(read_from(section_cut(file, section)?.bytes)?))
}

// The next task of a walk.
#[tactic(auto, using(base::proofs::FileLookups::walk_err, base::proofs::FileLookups::walk_ok))]
pub fn next_task(
    file: &[u8],
    section: Section,
    t: Table,
) -> Result<Option<(TaskEntry, Table)>, ContainerError>
    ensures { next_from task_in result ≡ next_task_at file.now (place_in section) t }
{
    step(section_cut(file, section)?, t)
}

// The next program instance of a walk.
#[tactic(auto, using(base::proofs::FileLookups::walk_err, base::proofs::FileLookups::walk_ok))]
pub fn next_program(
    file: &[u8],
    section: Section,
    t: Table,
) -> Result<Option<(ProgramInstanceEntry, Table)>, ContainerError>
    ensures { next_from program_in result ≡ next_program_at file.now (place_in section) t }
{
    step(section_cut(file, section)?, t)
}

// The claims of `specs/Laws.antt` hold. Empty body: the contract makes the checker prove them.
pub fn laws_hold()
    ensures { Laws }
{}
