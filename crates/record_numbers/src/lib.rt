// A record as numbers, and such numbers back to a record.
// Kept: one function for each part of a record, since each lists other fields; a table of them would be no plainer.
#![tactic(auto)]

pub mod back;
mod fitting;

ghost use Rattle.std.specs.Prelude.{◌≡◌, [], ◌∷◌};
ghost use Rattle.std.proofs.Math.Option.{some};
ghost use Rattle.debug_tables.specs.Answers.{debug_counts_in, maybe_debug, table_row_in, rows_in_force};
ghost use Rattle.header.specs.Answers.{header_in, directory_in, runtime_in};
ghost use Rattle.record.specs.Answers.{maybe_types, container_in};
ghost use Rattle.task_table.specs.Answers.{task_counts_in};
ghost use Rattle.type_section.specs.Answers.{type_counts_in};
ghost use Rattle.record_numbers.specs.ToNumbers.{head_numbers, directory_numbers, runtime_numbers, task_count_numbers, type_count_numbers, debug_count_numbers, table_row_numbers, in_force_numbers};
ghost use Rattle.record_numbers.specs.FromNumbers.{most2, head_most, directory_most, runtime_most, task_count_most, type_count_most, debug_count_most};
ghost use Rattle.record_numbers.specs.Answers.{AllAtMost};
ghost use Rattle.record_numbers.specs.Laws.{Fits, Laws};

use debug_tables::DebugCounts;
use debug_tables::in_force::{RowsInForce, TableRow};
use header::{FileHeader, RuntimeParameters, SectionDirectory};
use record::Container;
use task_table::TaskCounts;
use type_section::TypeCounts;

// The numbers that stand for a record, with the 0 in front of them.
pub const RECORD_NUMBERS: usize = 44;

// The 0, then version, profile and flags.
pub fn head(h: FileHeader) -> [u64; 4]
    ensures { result ≡ 0 ∷ head_numbers (header_in h) }
{
    [0, h.format_version as u64, h.profile as u64, h.flags as u64]
}

pub fn directory(d: SectionDirectory) -> [u64; 14]
    ensures { result ≡ directory_numbers (directory_in d) }
{
    [
        d.sig_section.offset as u64,
        d.sig_section.size as u64,
        d.debug_sig.offset as u64,
        d.debug_sig.size as u64,
        d.type_section.offset as u64,
        d.type_section.size as u64,
        d.task_section.offset as u64,
        d.task_section.size as u64,
        d.const_section.offset as u64,
        d.const_section.size as u64,
        d.code_section.offset as u64,
        d.code_section.size as u64,
        d.debug_section.offset as u64,
        d.debug_section.size as u64,
    ]
}

pub fn runtime(r: RuntimeParameters) -> [u64; 11]
    ensures { result ≡ runtime_numbers (runtime_in r) }
{
    [
        r.max_stack_depth as u64,
        r.max_call_depth as u64,
        r.num_variables as u64,
        r.data_region_bytes as u64,
        r.num_temp_bufs as u64,
        r.max_temp_buf_bytes as u64,
        r.num_functions as u64,
        r.num_fb_types as u64,
        r.input_image_bytes as u64,
        r.output_image_bytes as u64,
        r.memory_image_bytes as u64,
    ]
}

pub fn task_counts(t: TaskCounts) -> [u64; 3]
    ensures { result ≡ task_count_numbers (task_counts_in t) }
{
    [
        t.tasks as u64,
        t.programs as u64,
        t.shared_globals_size as u64,
    ]
}

// Kept: a match here and in `debug_counts`. `map_or` is as long, and the check does not find its proof alone.
pub fn type_counts(types: Option<TypeCounts>) -> [u64; 4]
    ensures { result ≡ type_count_numbers (maybe_types types) }
{
    match types {
        None => [0; 4],
        Some(t) => [1, t.fb_types as u64, t.arrays as u64, t.user_fbs as u64],
    }
}

pub fn debug_counts(debug: Option<DebugCounts>) -> [u64; 7]
    ensures { result ≡ debug_count_numbers (maybe_debug debug) }
{
    match debug {
        None => [0; 7],
        Some(d) => [
            1,
            d.lines as u64,
            d.variables as u64,
            d.functions as u64,
            d.strings as u64,
            d.files as u64,
            d.enumerations as u64,
        ],
    }
}

// Of one tag: 1 and the row, or 0 and 0; then the replaced count.
fn table_row(t: TableRow) -> [u64; 3]
    ensures { result ≡ table_row_numbers (table_row_in t) }
{
    match t.row {
        None => [0, 0, t.replaced as u64],
        Some(i) => [1, i as u64, t.replaced as u64],
    }
}

// The rows in force, three numbers for each tag.
pub fn in_force(u: RowsInForce) -> [u64; 18]
    ensures { result ≡ in_force_numbers (rows_in_force u) }
{
    let rows = [
        table_row(u.lines),
        table_row(u.variables),
        table_row(u.functions),
        table_row(u.strings),
        table_row(u.files),
        table_row(u.enumerations),
    ];
    let mut all = [0; 18];
    all.copy_from_slice(rows.as_flattened());
    all
}

// The numbers of every record fit their fields. Empty bodies: the contracts make the checker prove them.
fn head_fits(h: FileHeader)
    ensures { AllAtMost (0 ∷ head_most) (0 ∷ head_numbers (header_in h)) }
{}

fn directory_fits(d: SectionDirectory)
    ensures { AllAtMost directory_most (directory_numbers (directory_in d)) }
{}

fn runtime_fits(r: RuntimeParameters)
    ensures { AllAtMost runtime_most (runtime_numbers (runtime_in r)) }
{}

fn task_counts_fit(t: TaskCounts)
    ensures { AllAtMost task_count_most (task_count_numbers (task_counts_in t)) }
{}

fn some_types_fit(t: TypeCounts)
    ensures { AllAtMost (type_count_most most2) (type_count_numbers (some (type_counts_in t))) }
{}

// Kept: beside `debug_counts_fit`, which is of seven numbers and of another definition.
fn type_counts_fit(types: Option<TypeCounts>)
    ensures { AllAtMost (type_count_most most2) (type_count_numbers (maybe_types types)) }
{
    if let Some(t) = types {
        some_types_fit(t);
    }
}

fn constants_fit(constants: u16)
    ensures { AllAtMost (most2 ∷ []) (constants ∷ []) }
{}

fn some_debug_fits(d: DebugCounts)
    ensures { AllAtMost (debug_count_most most2) (debug_count_numbers (some (debug_counts_in d))) }
{}

fn debug_counts_fit(debug: Option<DebugCounts>)
    ensures { AllAtMost (debug_count_most most2) (debug_count_numbers (maybe_debug debug)) }
{
    if let Some(d) = debug {
        some_debug_fits(d);
    }
}

pub fn numbers_fit(c: Container)
    ensures { Fits (container_in c) }
{
    head_fits(c.header);
    directory_fits(c.header.sections);
    runtime_fits(c.header.runtime);
    task_counts_fit(c.tasks);
    type_counts_fit(c.types);
    constants_fit(c.constants);
    debug_counts_fit(c.debug);
}

// The laws of `specs/Laws.antt` hold. Empty body: the contract makes the checker prove them.
pub fn laws_hold()
    ensures { Laws }
{}
