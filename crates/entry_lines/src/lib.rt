// The lister's lines for the entries of a file's tables, one function for each kind of entry. Each writes its line at the place `at` of the lent
// buffer, if it fits, and returns the place behind it.
// Kept: one function for each kind, since each lists other fields; they have no more in common than the call that ends them.
#![tactic(auto)]

ghost use Rattle.lent.specs.Output.{Puts};
ghost use Rattle.task_table.specs.Answers.{task_in, program_in};
ghost use Rattle.type_entries.specs.Answers.{fb_type_head_in, field_in, array_in, user_fb_in};
ghost use Rattle.code_section.specs.Answers.{func_in};
ghost use Rattle.line_map.specs.Answers.{line_in};
ghost use Rattle.entry_lines.specs.Lines.{task_line, program_line, fb_type_line, field_line, array_line, user_fb_line, constant_line, function_line, line_line};
ghost use Rattle.entry_lines.specs.Answers.{with_bytes};
ghost use Rattle.entry_lines.specs.Laws.{Laws};

use code_section::FuncEntry;
use constant_pool::{ConstEntry, Kept, number_bytes};
use line_map::LineMapEntry;
use task_table::{ProgramInstanceEntry, TaskEntry};
use text::{put_bytes_line, put_dash_line, put_line};
use type_entries::{ArrayDescriptor, FbTypeDescriptor, FieldEntry, UserFbDescriptor};

pub fn put_task(out: &mut [u8], at: usize, t: TaskEntry) -> Option<usize>
    ensures { Puts out.old at (task_line (task_in t)) out.new result }
{
    let ns = [
        t.task_id.0 as u64,
        t.priority as u64,
        t.task_type.number() as u64,
        t.flags as u64,
        t.interval_us,
        t.single_var_index.0 as u64,
        t.watchdog_us,
        t.input_image_offset as u64,
        t.output_image_offset as u64,
    ];
    put_line(out, at, b"task", &ns)
}

pub fn put_program(out: &mut [u8], at: usize, p: ProgramInstanceEntry) -> Option<usize>
    ensures { Puts out.old at (program_line (program_in p)) out.new result }
{
    let ns = [
        p.instance_id.0 as u64,
        p.task_id.0 as u64,
        p.entry_function_id.0 as u64,
        p.var_table_offset as u64,
        p.var_table_count as u64,
        p.fb_instance_offset as u64,
        p.fb_instance_count as u64,
        p.init_function_id.0 as u64,
    ];
    put_line(out, at, b"program", &ns)
}

pub fn put_fb_type(out: &mut [u8], at: usize, b: FbTypeDescriptor) -> Option<usize>
    ensures { Puts out.old at (fb_type_line (fb_type_head_in b)) out.new result }
{
    let ns = [b.type_id.0 as u64, b.num_fields as u64];
    put_line(out, at, b"fbtype", &ns)
}

pub fn put_field(out: &mut [u8], at: usize, f: FieldEntry) -> Option<usize>
    ensures { Puts out.old at (field_line (field_in f)) out.new result }
{
    let ns = [f.field_type.number() as u64, f.field_extra as u64];
    put_line(out, at, b"field", &ns)
}

// An array, by its index, with the byte size of all its elements, or a dash on overflow.
pub fn put_array(out: &mut [u8], at: usize, index: usize, a: ArrayDescriptor) -> Option<usize>
    ensures { Puts out.old at (array_line index (array_in a)) out.new result }
{
    let index = index as u64;
    let kind = a.element_type as u64;
    let elements = a.total_elements as u64;
    let extra = a.element_extra as u64;
    let stride = a.element_stride as u64;
    match a.byte_size() {
        Err(_) => put_dash_line(out, at, b"array", &[index, kind, elements, extra, stride]),
        Ok(bytes) => {
            let ns = [index, kind, elements, extra, stride, bytes as u64];
            put_line(out, at, b"array", &ns)
        }
    }
}

pub fn put_user_fb(out: &mut [u8], at: usize, u: UserFbDescriptor) -> Option<usize>
    ensures { Puts out.old at (user_fb_line (user_fb_in u)) out.new result }
{
    let ns = [
        u.type_id.0 as u64,
        u.function_id.0 as u64,
        u.var_offset as u64,
        u.num_fields as u64,
    ];
    put_line(out, at, b"userfb", &ns)
}

// A constant, by its index, with its kept bytes; those of a string are a part of the file.
pub fn put_constant(
    out: &mut [u8],
    at: usize,
    index: usize,
    c: ConstEntry,
    file: &[u8],
) -> Option<usize>
    ensures { Puts out.old at (constant_line index (with_bytes file.now c)) out.new result }
{
    let ns = [index as u64, c.const_type.number() as u64];
    match c.kept {
        Kept::Number(n) => put_bytes_line(out, at, b"constant", &ns, &number_bytes(n)),
        Kept::Part(p) => put_bytes_line(out, at, b"constant", &ns, p.of(file)),
    }
}

pub fn put_function(out: &mut [u8], at: usize, f: FuncEntry) -> Option<usize>
    ensures { Puts out.old at (function_line (func_in f)) out.new result }
{
    let ns = [
        f.function_id.0 as u64,
        f.code_offset as u64,
        f.code_length as u64,
        f.max_stack_depth as u64,
        f.num_locals as u64,
        f.num_params as u64,
    ];
    put_line(out, at, b"function", &ns)
}

pub fn put_line_entry(out: &mut [u8], at: usize, e: LineMapEntry) -> Option<usize>
    ensures { Puts out.old at (line_line (line_in e)) out.new result }
{
    let ns = [
        e.function_id.0 as u64,
        e.bytecode_offset as u64,
        e.file_id.0 as u64,
        e.source_line.0 as u64,
        e.source_column.0 as u64,
    ];
    put_line(out, at, b"line", &ns)
}

// The claims of `specs/Laws.antt` hold. Empty body: the contract makes the checker prove them.
pub fn laws_hold()
    ensures { Laws }
{}
