// Entries of a file's tables that have lines in its listing.
ghost use Rattle.std.specs.Prelude.{ℕ, List, ◌≡◌};
ghost use Rattle.reading.specs.Places.{Next};
ghost use Rattle.reading.specs.declared.Table.{Table};
ghost use Rattle.lent.specs.Output.{PutsRestFree};
ghost use Rattle.format.specs.Code.{Function};
ghost use Rattle.format.specs.Constants.{Constant, on_constant};
ghost use Rattle.format.specs.Debug.{Line, line};
ghost use Rattle.format.specs.Parts.{Place};
ghost use Rattle.format.specs.Tasks.{Task, Program};
ghost use Rattle.format.specs.Types.{Field, Array, UserFb};
ghost use Rattle.base.specs.Answers.{next_from};
ghost use Rattle.base.specs.Section.{place_in, bytes_of};
ghost use Rattle.task_table.specs.Answers.{task_in, program_in};
ghost use Rattle.task_table.specs.Lookups.{next_task_at, next_program_at};
ghost use Rattle.type_entries.specs.Answers.{field_in, array_in, user_fb_in};
ghost use Rattle.type_section.specs.Answers.{fb_type_entry_in};
ghost use Rattle.type_section.specs.Lookups.{FbTypeEntry, next_fb_type_at, next_field_at, next_array_at, next_user_fb_at};
ghost use Rattle.constant_pool.specs.Answers.{const_in};
ghost use Rattle.constant_pool.specs.Lookups.{next_constant_at};
ghost use Rattle.code_section.specs.Answers.{func_in};
ghost use Rattle.code_section.specs.Lookups.{next_function_at};
ghost use Rattle.line_map.specs.Answers.{line_in};
ghost use Rattle.debug_walks.specs.Steps.{debug_step_at};
ghost use Rattle.entry_lines.specs.Lines.{task_line, program_line, field_line, array_line, user_fb_line, constant_line, function_line, line_line};
ghost use Rattle.table_lines.specs.Walks.{fb_type_text};

use crate::walk::put_entries;
use base::error::ContainerError;
use base::section::Section;
use code_section::{FuncEntry, next_function};
use constant_pool::{ConstEntry, next_constant};
use debug_walks::next_line;
use entry_lines::{
    put_array, put_constant, put_fb_type, put_field, put_function, put_line_entry, put_program,
    put_task, put_user_fb,
};
use line_map::LineMapEntry;
use reading::Table;
use task_table::{ProgramInstanceEntry, TaskEntry, next_program, next_task};
use type_entries::{ArrayDescriptor, FbTypeDescriptor, FieldEntry, UserFbDescriptor};
use type_section::{next_array, next_fb_type, next_field, next_user_fb};

// An entry that has a line, or more than one, in the listing.
pub trait Listed: Copy {
    // What document 01 keeps of it, and what of this the code's value is.
    ghost Kept: { Type 0 };

    ghost kept: { Self → Kept };

    // One step of a walk over its table, by the file and the section's place in it.
    ghost walk: { List ℕ → Place → Table → Next Kept };

    // Its lines, by the file, the section's place and its index.
    ghost line: { List ℕ → Place → ℕ → Kept → List ℕ };

    // The next entry of a walk, and the table of those behind it.
    fn next(
        file: &[u8],
        section: Section,
        t: Table,
    ) -> Result<Option<(Self, Table)>, ContainerError>
        ensures { next_from kept result ≡ walk file.now (place_in section) t };

    // Writes its lines at the place `at`, and returns the place behind them, or that they do not fit.
    fn put(
        self,
        out: &mut [u8],
        at: usize,
        file: &[u8],
        section: Section,
        index: usize,
    ) -> Option<usize>
        ensures { PutsRestFree out.old at (line file.now (place_in section) index (kept self)) out.new result };
}

impl Listed for TaskEntry {
    ghost Kept = { Task };

    ghost kept = { task_in };

    ghost walk = { next_task_at };

    ghost line = { λ f p i. task_line };

    fn next(
        file: &[u8],
        section: Section,
        t: Table,
    ) -> Result<Option<(Self, Table)>, ContainerError> {
        next_task(file, section, t)
    }

    fn put(
        self,
        out: &mut [u8],
        at: usize,
        _file: &[u8],
        _section: Section,
        _index: usize,
    ) -> Option<usize> {
        put_task(out, at, self)
    }
}

impl Listed for ProgramInstanceEntry {
    ghost Kept = { Program };

    ghost kept = { program_in };

    ghost walk = { next_program_at };

    ghost line = { λ f p i. program_line };

    fn next(
        file: &[u8],
        section: Section,
        t: Table,
    ) -> Result<Option<(Self, Table)>, ContainerError> {
        next_program(file, section, t)
    }

    fn put(
        self,
        out: &mut [u8],
        at: usize,
        _file: &[u8],
        _section: Section,
        _index: usize,
    ) -> Option<usize> {
        put_program(out, at, self)
    }
}

impl Listed for FieldEntry {
    ghost Kept = { Field };

    ghost kept = { field_in };

    ghost walk = { next_field_at };

    ghost line = { λ f p i. field_line };

    fn next(
        file: &[u8],
        section: Section,
        t: Table,
    ) -> Result<Option<(Self, Table)>, ContainerError> {
        next_field(file, section, t)
    }

    fn put(
        self,
        out: &mut [u8],
        at: usize,
        _file: &[u8],
        _section: Section,
        _index: usize,
    ) -> Option<usize> {
        put_field(out, at, self)
    }
}

// An FB type with the table of its fields. It is listed with them.
#[derive(Clone, Copy)]
pub struct FbTypeWithFields {
    fb_type: FbTypeDescriptor,
    fields: Table,
}

impl Listed for FbTypeWithFields {
    ghost Kept = { FbTypeEntry };

    ghost kept = { λ b. fb_type_entry_in (b.fb_type, b.fields) };

    ghost walk = { next_fb_type_at };

    ghost line = { λ f p i. fb_type_text f p };

    fn next(
        file: &[u8],
        section: Section,
        t: Table,
    ) -> Result<Option<(Self, Table)>, ContainerError> {
        let found = next_fb_type(file, section, t)?;
        Ok(found.map(|(fb_type, fields, rest)| (FbTypeWithFields { fb_type, fields }, rest)))
    }

    fn put(
        self,
        out: &mut [u8],
        at: usize,
        file: &[u8],
        section: Section,
        _index: usize,
    ) -> Option<usize> {
        let n = put_fb_type(out, at, self.fb_type)?;
        put_entries::<FieldEntry>(out, n, file, section, self.fields)
    }
}

// An array's line begins with its index.
impl Listed for ArrayDescriptor {
    ghost Kept = { Array };

    ghost kept = { array_in };

    ghost walk = { next_array_at };

    ghost line = { λ f p. array_line };

    fn next(
        file: &[u8],
        section: Section,
        t: Table,
    ) -> Result<Option<(Self, Table)>, ContainerError> {
        next_array(file, section, t)
    }

    fn put(
        self,
        out: &mut [u8],
        at: usize,
        _file: &[u8],
        _section: Section,
        index: usize,
    ) -> Option<usize> {
        put_array(out, at, index, self)
    }
}

impl Listed for UserFbDescriptor {
    ghost Kept = { UserFb };

    ghost kept = { user_fb_in };

    ghost walk = { next_user_fb_at };

    ghost line = { λ f p i. user_fb_line };

    fn next(
        file: &[u8],
        section: Section,
        t: Table,
    ) -> Result<Option<(Self, Table)>, ContainerError> {
        next_user_fb(file, section, t)
    }

    fn put(
        self,
        out: &mut [u8],
        at: usize,
        _file: &[u8],
        _section: Section,
        _index: usize,
    ) -> Option<usize> {
        put_user_fb(out, at, self)
    }
}

// A constant's line begins with its index, too; the bytes of a string are a part of the file.
impl Listed for ConstEntry {
    ghost Kept = { Constant Place };

    ghost kept = { const_in };

    ghost walk = { next_constant_at };

    ghost line = { λ f p i c. constant_line i (on_constant (bytes_of f) c) };

    fn next(
        file: &[u8],
        section: Section,
        t: Table,
    ) -> Result<Option<(Self, Table)>, ContainerError> {
        next_constant(file, section, t)
    }

    fn put(
        self,
        out: &mut [u8],
        at: usize,
        file: &[u8],
        _section: Section,
        index: usize,
    ) -> Option<usize> {
        put_constant(out, at, index, self, file)
    }
}

impl Listed for FuncEntry {
    ghost Kept = { Function };

    ghost kept = { func_in };

    ghost walk = { next_function_at };

    ghost line = { λ f p i. function_line };

    fn next(
        file: &[u8],
        section: Section,
        t: Table,
    ) -> Result<Option<(Self, Table)>, ContainerError> {
        next_function(file, section, t)
    }

    fn put(
        self,
        out: &mut [u8],
        at: usize,
        _file: &[u8],
        _section: Section,
        _index: usize,
    ) -> Option<usize> {
        put_function(out, at, self)
    }
}

impl Listed for LineMapEntry {
    ghost Kept = { Line };

    ghost kept = { line_in };

    ghost walk = { λ f p t. debug_step_at f p line t };

    ghost line = { λ f p i. line_line };

    fn next(
        file: &[u8],
        section: Section,
        t: Table,
    ) -> Result<Option<(Self, Table)>, ContainerError> {
        next_line(file, section, t)
    }

    fn put(
        self,
        out: &mut [u8],
        at: usize,
        _file: &[u8],
        _section: Section,
        _index: usize,
    ) -> Option<usize> {
        put_line_entry(out, at, self)
    }
}
