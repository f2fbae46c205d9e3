// The record that reading a file yields, and the lookups over it. A record is not trusted: anyone can construct one, and each lookup reads its
// section again, at the record's place, size and function count.
#![tactic(auto)]

ghost use Rattle.std.specs.Prelude.{◌≡◌, length, IfOk};
ghost use Rattle.format.specs.Lookups.{run_answers, debug_answers};
ghost use Rattle.base.specs.Answers.{as_it_is, got_from};
ghost use Rattle.base.specs.Error.{fault_of};
ghost use Rattle.base.specs.Small.{byte_width};
ghost use Rattle.base.specs.Section.{place_in, part_in, PartWithin, bytes_or};
ghost use Rattle.task_table.specs.Answers.{task_in, program_in};
ghost use Rattle.type_entries.specs.Answers.{field_in, fb_type_head_in, array_in, user_fb_in};
ghost use Rattle.constant_pool.specs.Answers.{const_in, KeptEnds};
ghost use Rattle.code_section.specs.Answers.{func_in};
ghost use Rattle.line_map.specs.Answers.{line_in};
ghost use Rattle.requests.specs.BadPlace.{bad_place_of};
ghost use Rattle.debug_entries.specs.Answers.{variable_in, function_name_in, string_layout_in, source_file_in, enumeration_in};
ghost use Rattle.debug_tables.specs.Answers.{bad_place_in};
ghost use Rattle.record.specs.Answers.{container_in, enumeration_with};
ghost use Rattle.record.specs.Absence.{absent_fault, types_place, debug_place};
ghost use Rattle.record.specs.Starts.{tasks_start_in, programs_start_in, fb_types_start_in, arrays_start_in, user_fbs_start_in, constants_start_in, functions_start_in, debug_starts_in};

use base::char_width::CharWidth;
use base::error::ContainerError;
use base::id_types::{ConstantIndex, FunctionId, SourceFileId};
use base::section::{FILE_LIMIT, Part, Section};
use code_section::FuncEntry;
use constant_pool::ConstEntry;
use debug_entries::enumerations::EnumerationEntry;
use debug_entries::function_names::FunctionNameEntry;
use debug_entries::source_files::SourceFileEntry;
use debug_entries::string_layouts::StringLayoutEntry;
use debug_entries::variables::VariableEntry;
use debug_tables::in_force::RowsInForce;
use debug_tables::{DebugCounts, DebugTables};
use header::FileHeader;
use line_map::LineMapEntry;
use reading::Table;
use task_table::{ProgramInstanceEntry, TaskCounts, TaskEntry};
use type_entries::{ArrayDescriptor, FbTypeDescriptor, FieldEntry, UserFbDescriptor};
use type_section::TypeCounts;

// A container: the header, which holds each section's place and size and the function count; the other counts; and, of the debug tables in force, their
// rows and how many earlier rows each replaced. No lookup reads these rows. `types` is none where the file has no type section, `debug` where the
// container loads with no debug.
#[derive(Clone, Copy)]
pub struct Container {
    pub header: FileHeader,
    pub tasks: TaskCounts,
    pub types: Option<TypeCounts>,
    pub constants: u16,
    pub debug: Option<DebugCounts>,
    pub in_force: RowsInForce,
}

// The refusal of a lookup in types or debug that the record lacks: 10 first, else `out`.
fn absent(file: &[u8], out: ContainerError) -> ContainerError
    ensures { fault_of result ≡ absent_fault (fault_of out) file.now }
{
    if file.len() > FILE_LIMIT {
        return ContainerError::TooLong;
    }
    out
}

// Kept: a method for each lookup and each walk, by the names of document 01 and the Rust, which users call; each is one call.
impl Container {
    // The place of the type section, where the record has types.
    // Kept: beside `debug_section`. One for both would take counts, section and refusal, and these two would still call it.
    fn type_section(self, file: &[u8]) -> Result<Section, ContainerError>
        ensures { got_from place_in result ≡ types_place file.now (container_in self) }
    {
        match self.types {
            Some(_) => Ok(self.header.sections.type_section),
            None => Err(absent(file, ContainerError::NoArray)),
        }
    }

    // The place of the debug section, where the record has debug.
    fn debug_section(self, file: &[u8]) -> Result<Section, ContainerError>
        ensures { got_from place_in result ≡ debug_place file.now (container_in self) }
    {
        match self.debug {
            Some(_) => Ok(self.header.sections.debug_section),
            None => Err(absent(file, ContainerError::NoDebug)),
        }
    }

    // A task.
    pub fn task(self, file: &[u8], index: u16) -> Result<TaskEntry, ContainerError>
        ensures { got_from task_in result ≡ (run_answers file.now (container_in self)).task index }
    {
        task_table::task(file, self.header.sections.task_section, index)
    }

    // Where a walk over the tasks starts.
    pub fn tasks(self, file: &[u8]) -> Result<Table, ContainerError>
        ensures { got_from as_it_is result ≡ tasks_start_in file.now (container_in self) }
    {
        task_table::tasks(file, self.header.sections.task_section)
    }

    // A program instance.
    pub fn program(self, file: &[u8], index: u16) -> Result<ProgramInstanceEntry, ContainerError>
        ensures { got_from program_in result ≡ (run_answers file.now (container_in self)).program index }
    {
        task_table::program(file, self.header.sections.task_section, index)
    }

    // Where a walk over the program instances starts.
    pub fn programs(self, file: &[u8]) -> Result<Table, ContainerError>
        ensures { got_from as_it_is result ≡ programs_start_in file.now (container_in self) }
    {
        task_table::programs(file, self.header.sections.task_section)
    }

    // Where a walk over the FB types starts.
    #[tactic(auto, using(crate::proofs::Lookups::types_err, crate::proofs::Lookups::types_ok))]
    pub fn fb_types(self, file: &[u8]) -> Result<Table, ContainerError>
        ensures { got_from as_it_is result ≡ fb_types_start_in file.now (container_in self) }
    {
        type_section::fb_types(file, self.type_section(file)?)
    }

    // An FB type: its id and its number of fields.
    #[tactic(auto, using(crate::proofs::Lookups::types_err, crate::proofs::Lookups::types_ok))]
    pub fn fb_type(self, file: &[u8], index: u16) -> Result<FbTypeDescriptor, ContainerError>
        ensures { got_from fb_type_head_in result ≡ (run_answers file.now (container_in self)).fb_type index }
    {
        type_section::fb_type(file, self.type_section(file)?, index)
    }

    // A field of an FB type.
    #[tactic(auto, using(crate::proofs::Lookups::types_err, crate::proofs::Lookups::types_ok))]
    pub fn field(self, file: &[u8], index: u16, field: u16) -> Result<FieldEntry, ContainerError>
        ensures { got_from field_in result ≡ (run_answers file.now (container_in self)).field index field }
    {
        type_section::field(file, self.type_section(file)?, index, field)
    }

    // An array.
    #[tactic(auto, using(crate::proofs::Lookups::types_err, crate::proofs::Lookups::types_ok))]
    pub fn array(self, file: &[u8], index: u16) -> Result<ArrayDescriptor, ContainerError>
        ensures { got_from array_in result ≡ (run_answers file.now (container_in self)).array index }
    {
        type_section::array(file, self.type_section(file)?, index)
    }

    // Where a walk over the arrays starts.
    #[tactic(auto, using(crate::proofs::Lookups::types_err, crate::proofs::Lookups::types_ok))]
    pub fn arrays(self, file: &[u8]) -> Result<Table, ContainerError>
        ensures { got_from as_it_is result ≡ arrays_start_in file.now (container_in self) }
    {
        type_section::arrays(file, self.type_section(file)?)
    }

    // The bytes of an array.
    #[tactic(auto, using(crate::proofs::Lookups::types_err, crate::proofs::Lookups::types_ok))]
    pub fn array_size(self, file: &[u8], index: u16) -> Result<u32, ContainerError>
        ensures { got_from as_it_is result ≡ (run_answers file.now (container_in self)).array_size index }
    {
        type_section::array_size(file, self.type_section(file)?, index)
    }

    // A user FB.
    #[tactic(auto, using(crate::proofs::Lookups::types_err, crate::proofs::Lookups::types_ok))]
    pub fn user_fb(self, file: &[u8], index: u16) -> Result<UserFbDescriptor, ContainerError>
        ensures { got_from user_fb_in result ≡ (run_answers file.now (container_in self)).user_fb index }
    {
        type_section::user_fb(file, self.type_section(file)?, index)
    }

    // Where a walk over the user FBs starts.
    #[tactic(auto, using(crate::proofs::Lookups::types_err, crate::proofs::Lookups::types_ok))]
    pub fn user_fbs(self, file: &[u8]) -> Result<Table, ContainerError>
        ensures { got_from as_it_is result ≡ user_fbs_start_in file.now (container_in self) }
    {
        type_section::user_fbs(file, self.type_section(file)?)
    }

    // Where a walk over the constants starts.
    pub fn constants(self, file: &[u8]) -> Result<Table, ContainerError>
        ensures { got_from as_it_is result ≡ constants_start_in file.now (container_in self) }
    {
        constant_pool::constants(file, self.header.sections.const_section)
    }

    // A constant; a string by its part of the file.
    pub fn constant(self, file: &[u8], index: ConstantIndex) -> Result<ConstEntry, ContainerError>
        ensures { (got_from const_in result ≡ (run_answers file.now (container_in self)).constant index.0)
            × IfOk result (λ c. KeptEnds (length file.now) c.kept) }
    {
        constant_pool::entry(file, self.header.sections.const_section, index)
    }

    // A number constant; any other type is refused.
    pub fn get_i32(self, file: &[u8], index: ConstantIndex) -> Result<i32, ContainerError>
        ensures { got_from as_it_is result ≡ (run_answers file.now (container_in self)).i32 index.0 }
    {
        constant_pool::get_i32(file, self.header.sections.const_section, index)
    }

    pub fn get_u32(self, file: &[u8], index: ConstantIndex) -> Result<u32, ContainerError>
        ensures { got_from as_it_is result ≡ (run_answers file.now (container_in self)).u32 index.0 }
    {
        constant_pool::get_u32(file, self.header.sections.const_section, index)
    }

    pub fn get_i64(self, file: &[u8], index: ConstantIndex) -> Result<i64, ContainerError>
        ensures { got_from as_it_is result ≡ (run_answers file.now (container_in self)).i64 index.0 }
    {
        constant_pool::get_i64(file, self.header.sections.const_section, index)
    }

    pub fn get_u64(self, file: &[u8], index: ConstantIndex) -> Result<u64, ContainerError>
        ensures { got_from as_it_is result ≡ (run_answers file.now (container_in self)).u64 index.0 }
    {
        constant_pool::get_u64(file, self.header.sections.const_section, index)
    }

    // The bits of a float.
    pub fn get_f32(self, file: &[u8], index: ConstantIndex) -> Result<u32, ContainerError>
        ensures { got_from as_it_is result ≡ (run_answers file.now (container_in self)).f32 index.0 }
    {
        constant_pool::get_f32(file, self.header.sections.const_section, index)
    }

    pub fn get_f64(self, file: &[u8], index: ConstantIndex) -> Result<u64, ContainerError>
        ensures { got_from as_it_is result ≡ (run_answers file.now (container_in self)).f64 index.0 }
    {
        constant_pool::get_f64(file, self.header.sections.const_section, index)
    }

    // A string, Str or WStr, by its part of the file.
    pub fn string_part(self, file: &[u8], index: ConstantIndex) -> Result<Part, ContainerError>
        ensures { (got_from part_in result ≡ (run_answers file.now (container_in self)).string index.0) × PartWithin file.now result }
    {
        constant_pool::string_part(file, self.header.sections.const_section, index)
    }

    // A string: that part of the file, or an empty part where `string_part` refuses.
    pub fn get_str(self, file: &[u8], index: ConstantIndex) -> &[u8]
        ensures { result.now ≡ bytes_or file.now ((run_answers file.now (container_in self)).string index.0) }
    {
        constant_pool::get_str(file, self.header.sections.const_section, index)
    }

    // Bytes per character of a string.
    pub fn char_width(self, file: &[u8], index: ConstantIndex) -> Result<CharWidth, ContainerError>
        ensures { got_from byte_width result ≡ (run_answers file.now (container_in self)).char_width index.0 }
    {
        constant_pool::char_width(file, self.header.sections.const_section, index)
    }

    // A function, by its position in the directory.
    pub fn get_function(
        self,
        file: &[u8],
        function_id: FunctionId,
    ) -> Result<FuncEntry, ContainerError>
        ensures { got_from func_in result ≡ (run_answers file.now (container_in self)).function function_id.0 }
    {
        code_section::get_function(
            file,
            self.header.sections.code_section,
            self.header.runtime.num_functions,
            function_id,
        )
    }

    // Where a walk over the functions starts.
    pub fn functions(self, file: &[u8]) -> Result<Table, ContainerError>
        ensures { got_from as_it_is result ≡ functions_start_in file.now (container_in self) }
    {
        code_section::functions(
            file,
            self.header.sections.code_section,
            self.header.runtime.num_functions,
        )
    }

    // A function's bytecode, by its place in the file.
    pub fn bytecode_part(self, file: &[u8], function_id: FunctionId) -> Result<Part, ContainerError>
        ensures { (got_from part_in result ≡ (run_answers file.now (container_in self)).bytecode function_id.0) × PartWithin file.now result }
    {
        code_section::bytecode_part(
            file,
            self.header.sections.code_section,
            self.header.runtime.num_functions,
            function_id,
        )
    }

    // A function's bytecode: that part of the file, or an empty part where `bytecode_part` refuses.
    pub fn get_function_bytecode(self, file: &[u8], function_id: FunctionId) -> &[u8]
        ensures { result.now ≡ bytes_or file.now ((run_answers file.now (container_in self)).bytecode function_id.0) }
    {
        code_section::get_function_bytecode(
            file,
            self.header.sections.code_section,
            self.header.runtime.num_functions,
            function_id,
        )
    }

    // Where the walks over the debug tables start.
    #[tactic(auto, using(crate::proofs::Lookups::starts_err, crate::proofs::Lookups::starts_ok))]
    pub fn debug_tables(self, file: &[u8]) -> Result<DebugTables, ContainerError>
        ensures { got_from as_it_is result ≡ debug_starts_in file.now (container_in self) }
    {
        debug_section::tables(file, self.debug_section(file)?)
    }

    // Which byte of a name or a path keeps the debug section from being read: the section's bad place, by the record's directory alone, so also of a
    // record without debug.
    pub fn bad_place(self, file: &[u8]) -> Option<usize>
        ensures { bad_place_in result ≡ bad_place_of file.now (container_in self) }
    {
        debug_section::bad_place(file, self.header.sections.debug_section)
    }

    // The source location of a place in a function's bytecode.
    #[tactic(auto, using(crate::proofs::Lookups::debug_err, crate::proofs::Lookups::debug_ok))]
    pub fn lookup_source_location(
        self,
        file: &[u8],
        function_id: FunctionId,
        bytecode_offset: u16,
    ) -> Result<LineMapEntry, ContainerError>
        ensures { got_from line_in result ≡ (debug_answers file.now (container_in self)).source_line function_id.0 bytecode_offset }
    {
        debug_section::lookup_source_location(
            file,
            self.debug_section(file)?,
            function_id,
            bytecode_offset,
        )
    }

    // An entry of the line map.
    #[tactic(auto, using(crate::proofs::Lookups::debug_err, crate::proofs::Lookups::debug_ok))]
    pub fn line(self, file: &[u8], index: u16) -> Result<LineMapEntry, ContainerError>
        ensures { got_from line_in result ≡ (debug_answers file.now (container_in self)).line index }
    {
        debug_section::line(file, self.debug_section(file)?, index)
    }

    // A variable's names.
    #[tactic(auto, using(crate::proofs::Lookups::debug_err, crate::proofs::Lookups::debug_ok))]
    pub fn variable(self, file: &[u8], index: u16) -> Result<VariableEntry, ContainerError>
        ensures { got_from variable_in result ≡ (debug_answers file.now (container_in self)).variable index }
    {
        debug_section::variable(file, self.debug_section(file)?, index)
    }

    // A function's name.
    #[tactic(auto, using(crate::proofs::Lookups::debug_err, crate::proofs::Lookups::debug_ok))]
    pub fn function_name(self, file: &[u8], index: u16) -> Result<FunctionNameEntry, ContainerError>
        ensures { got_from function_name_in result ≡ (debug_answers file.now (container_in self)).function_name index }
    {
        debug_section::function_name(file, self.debug_section(file)?, index)
    }

    // A string's layout.
    #[tactic(auto, using(crate::proofs::Lookups::debug_err, crate::proofs::Lookups::debug_ok))]
    pub fn string_layout(self, file: &[u8], index: u16) -> Result<StringLayoutEntry, ContainerError>
        ensures { got_from string_layout_in result ≡ (debug_answers file.now (container_in self)).string_layout index }
    {
        debug_section::string_layout(file, self.debug_section(file)?, index)
    }

    // A source file.
    #[tactic(auto, using(crate::proofs::Lookups::debug_err, crate::proofs::Lookups::debug_ok))]
    pub fn source_file(
        self,
        file: &[u8],
        file_id: SourceFileId,
    ) -> Result<SourceFileEntry, ContainerError>
        ensures { got_from source_file_in result ≡ (debug_answers file.now (container_in self)).source_file file_id.0 }
    {
        debug_section::source_file(file, self.debug_section(file)?, file_id)
    }

    // An enumeration: its name, and the table of its values' names.
    pub fn enumeration(self, file: &[u8], index: u16) -> Result<EnumerationEntry, ContainerError>
        ensures { got_from enumeration_in result ≡ enumeration_with file.now (container_in self) index }
    {
        debug_section::enumeration(file, self.debug_section(file)?, index)
    }

    // The name of a value of an enumeration.
    #[tactic(auto, using(crate::proofs::Lookups::debug_err, crate::proofs::Lookups::debug_ok))]
    pub fn enumeration_value(
        self,
        file: &[u8],
        index: u16,
        value: u16,
    ) -> Result<Part, ContainerError>
        ensures { got_from part_in result ≡ (debug_answers file.now (container_in self)).enumeration_value index value }
    {
        debug_section::enumeration_value(file, self.debug_section(file)?, index, value)
    }
}
