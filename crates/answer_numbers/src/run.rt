// Tasks, types, constants and functions.
ghost use Rattle.format.specs.Code.{Function};
ghost use Rattle.format.specs.Constants.{Constant};
ghost use Rattle.format.specs.Lookups.{FbTypeHead};
ghost use Rattle.format.specs.Parts.{Place};
ghost use Rattle.format.specs.Tasks.{Task, Program};
ghost use Rattle.format.specs.Types.{Field, Array, UserFb};
ghost use Rattle.code_section.specs.Answers.{func_in};
ghost use Rattle.constant_pool.specs.Answers.{const_in};
ghost use Rattle.task_table.specs.Answers.{task_in, program_in};
ghost use Rattle.type_entries.specs.Answers.{array_in, fb_type_head_in, field_in, user_fb_in};
ghost use Rattle.answer_numbers.specs.Fields.{array_numbers, constant_numbers, fb_type_numbers, field_numbers, function_numbers, program_numbers, task_numbers, user_fb_numbers};

use crate::{InNumbers, Numbers};
use code_section::FuncEntry;
use constant_pool::{ConstEntry, Kept};
use task_table::{ProgramInstanceEntry, TaskEntry};
use type_entries::{ArrayDescriptor, FbTypeDescriptor, FieldEntry, UserFbDescriptor};

impl InNumbers for TaskEntry {
    ghost Kept = { Task };

    ghost view = { task_in };

    ghost said = { task_numbers };

    #[tactic(auto, using(crate::proofs::Words::of_four))]
    fn numbers(self) -> Numbers {
        Numbers::of(&[
            0,
            self.task_id.0 as u64,
            self.priority as u64,
            self.task_type.number() as u64,
            self.flags as u64,
            self.interval_us,
            self.single_var_index.0 as u64,
            self.watchdog_us,
            self.input_image_offset as u64,
            self.output_image_offset as u64,
            self.reserved as u64,
        ])
    }
}

impl InNumbers for ProgramInstanceEntry {
    ghost Kept = { Program };

    ghost view = { program_in };

    ghost said = { program_numbers };

    fn numbers(self) -> Numbers {
        Numbers::of(&[
            0,
            self.instance_id.0 as u64,
            self.task_id.0 as u64,
            self.entry_function_id.0 as u64,
            self.var_table_offset as u64,
            self.var_table_count as u64,
            self.fb_instance_offset as u64,
            self.fb_instance_count as u64,
            self.init_function_id.0 as u64,
        ])
    }
}

impl InNumbers for FbTypeDescriptor {
    ghost Kept = { FbTypeHead };

    ghost view = { fb_type_head_in };

    ghost said = { fb_type_numbers };

    fn numbers(self) -> Numbers {
        Numbers::of(&[0, self.type_id.0 as u64, self.num_fields as u64])
    }
}

impl InNumbers for FieldEntry {
    ghost Kept = { Field };

    ghost view = { field_in };

    ghost said = { field_numbers };

    fn numbers(self) -> Numbers {
        Numbers::of(&[0, self.field_type.number() as u64, self.field_extra as u64])
    }
}

impl InNumbers for ArrayDescriptor {
    ghost Kept = { Array };

    ghost view = { array_in };

    ghost said = { array_numbers };

    fn numbers(self) -> Numbers {
        Numbers::of(&[
            0,
            self.element_type as u64,
            self.total_elements as u64,
            self.element_extra as u64,
            self.element_stride as u64,
        ])
    }
}

impl InNumbers for UserFbDescriptor {
    ghost Kept = { UserFb };

    ghost view = { user_fb_in };

    ghost said = { user_fb_numbers };

    fn numbers(self) -> Numbers {
        Numbers::of(&[
            0,
            self.type_id.0 as u64,
            self.function_id.0 as u64,
            self.var_offset as u64,
            self.num_fields as u64,
        ])
    }
}

// A constant's type and what is kept of it.
impl InNumbers for ConstEntry {
    ghost Kept = { Constant Place };

    ghost view = { const_in };

    ghost said = { constant_numbers };

    #[tactic(auto, using(crate::proofs::Words::of_eight))]
    fn numbers(self) -> Numbers {
        let kind = self.const_type.number() as u64;
        match self.kept {
            Kept::Number(n) => Numbers::of(&[0, kind, n]),
            Kept::Part(p) => Numbers::of(&[0, kind, p.offset as u64, p.size as u64]),
        }
    }
}

impl InNumbers for FuncEntry {
    ghost Kept = { Function };

    ghost view = { func_in };

    ghost said = { function_numbers };

    fn numbers(self) -> Numbers {
        Numbers::of(&[
            0,
            self.function_id.0 as u64,
            self.code_offset as u64,
            self.code_length as u64,
            self.max_stack_depth as u64,
            self.num_locals as u64,
            self.num_params as u64,
        ])
    }
}
