// Entries of the debug tables.
ghost use Rattle.format.specs.Debug.{FunctionName, Line, SourceFile, StringLayout, Variable};
ghost use Rattle.format.specs.Parts.{Place};
ghost use Rattle.debug_entries.specs.Answers.{EnumerationWithValues, enumeration_in, function_name_in, source_file_in, string_layout_in, variable_in};
ghost use Rattle.line_map.specs.Answers.{line_in};
ghost use Rattle.answer_numbers.specs.Fields.{enumeration_numbers, function_name_numbers, layout_numbers, line_numbers, source_numbers, variable_numbers};

use crate::{InNumbers, Numbers};
use debug_entries::enumerations::EnumerationEntry;
use debug_entries::function_names::FunctionNameEntry;
use debug_entries::source_files::SourceFileEntry;
use debug_entries::string_layouts::StringLayoutEntry;
use debug_entries::variables::VariableEntry;
use line_map::LineMapEntry;
use reading::u64_at;

impl InNumbers for LineMapEntry {
    ghost Kept = { Line };

    ghost view = { line_in };

    ghost said = { line_numbers };

    fn numbers(self) -> Numbers {
        Numbers::of(&[
            0,
            self.function_id.0 as u64,
            self.bytecode_offset as u64,
            self.file_id.0 as u64,
            self.source_line.0 as u64,
            self.source_column.0 as u64,
        ])
    }
}

impl InNumbers for VariableEntry {
    ghost Kept = { Variable Place };

    ghost view = { variable_in };

    ghost said = { variable_numbers };

    fn numbers(self) -> Numbers {
        Numbers::of(&[
            0,
            self.var_index.0 as u64,
            self.function_id.0 as u64,
            self.var_section as u64,
            self.iec_type_tag as u64,
            self.name.offset as u64,
            self.name.size as u64,
            self.type_name.offset as u64,
            self.type_name.size as u64,
        ])
    }
}

impl InNumbers for FunctionNameEntry {
    ghost Kept = { FunctionName Place };

    ghost view = { function_name_in };

    ghost said = { function_name_numbers };

    fn numbers(self) -> Numbers {
        Numbers::of(&[
            0,
            self.function_id.0 as u64,
            self.name.offset as u64,
            self.name.size as u64,
        ])
    }
}

impl InNumbers for StringLayoutEntry {
    ghost Kept = { StringLayout };

    ghost view = { string_layout_in };

    ghost said = { layout_numbers };

    fn numbers(self) -> Numbers {
        Numbers::of(&[
            0,
            self.var_index.0 as u64,
            self.data_offset as u64,
            self.max_length as u64,
        ])
    }
}

// A path, and the 32 bytes of a hash as four numbers.
impl InNumbers for SourceFileEntry {
    ghost Kept = { SourceFile Place };

    ghost view = { source_file_in };

    ghost said = { source_numbers };

    fn numbers(self) -> Numbers {
        let hash = self.content_hash.bytes();
        Numbers::of(&[
            0,
            self.path.offset as u64,
            self.path.size as u64,
            u64_at(&hash, 0),
            u64_at(&hash, 8),
            u64_at(&hash, 16),
            u64_at(&hash, 24),
        ])
    }
}

// An enumeration's name and how many values it has.
impl InNumbers for EnumerationEntry {
    ghost Kept = { EnumerationWithValues };

    ghost view = { enumeration_in };

    ghost said = { λ e. enumeration_numbers e.head };

    fn numbers(self) -> Numbers {
        Numbers::of(&[
            0,
            self.type_name.offset as u64,
            self.type_name.size as u64,
            self.values.count as u64,
        ])
    }
}
