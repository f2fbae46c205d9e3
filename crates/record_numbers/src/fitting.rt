// Numbers that fit the fields of a record.
// Kept: each field by its number's place, since fields of three widths are cast; a table of places would be no plainer.
ghost use Rattle.std.specs.Prelude.{◌≡◌, ◌≤◌, true};
ghost use Rattle.base.specs.Section.{place_in};
ghost use Rattle.debug_tables.specs.Answers.{maybe_debug};
ghost use Rattle.header.specs.Answers.{header_in, directory_in, runtime_in};
ghost use Rattle.record.specs.Answers.{maybe_types, container_in};
ghost use Rattle.task_table.specs.Answers.{task_counts_in};
ghost use Rattle.record_numbers.specs.FromNumbers.{number_at, most_of_fields, fits, place_by, directory_by, runtime_by, header_by, task_counts_by, type_counts_by, debug_counts_by, record_by};

use crate::RECORD_NUMBERS;
use base::digest::NO_HASH;
use base::section::Section;
use debug_tables::DebugCounts;
use debug_tables::in_force::none_in_force;
use header::{FileHeader, MAGIC, Reserved, RuntimeParameters, SectionDirectory};
use record::Container;
use task_table::TaskCounts;
use type_section::TypeCounts;

// The places of the flags.
pub const TYPES_FLAG: usize = 32;

pub const DEBUG_FLAG: usize = 37;

#[derive(Clone, Copy)]
pub struct Fitting {
    pub n: [u64; RECORD_NUMBERS],
    ghost fit: { fits most_of_fields n ≡ true },
}

impl Fitting {
    #[tactic(auto, using(crate::proofs::Bounds::at_most_4))]
    fn section(self, at: usize) -> Section
        requires { (4 ≤ at) × (at ≤ 16) }
        ensures { place_in result ≡ place_by (number_at self.n) at }
    {
        Section {
            offset: self.n[at] as u32,
            size: self.n[at + 1] as u32,
        }
    }

    fn directory(self) -> SectionDirectory
        ensures { directory_in result ≡ directory_by (number_at self.n) }
    {
        SectionDirectory {
            sig_section: self.section(4),
            debug_sig: self.section(6),
            type_section: self.section(8),
            task_section: self.section(10),
            const_section: self.section(12),
            code_section: self.section(14),
            debug_section: self.section(16),
        }
    }

    #[tactic(auto, using(crate::proofs::Bounds::at_most_2, crate::proofs::Bounds::at_most_4))]
    fn runtime(self) -> RuntimeParameters
        ensures { runtime_in result ≡ runtime_by (number_at self.n) }
    {
        RuntimeParameters {
            max_stack_depth: self.n[18] as u16,
            max_call_depth: self.n[19] as u16,
            num_variables: self.n[20] as u16,
            data_region_bytes: self.n[21] as u32,
            num_temp_bufs: self.n[22] as u16,
            max_temp_buf_bytes: self.n[23] as u32,
            num_functions: self.n[24] as u16,
            num_fb_types: self.n[25] as u16,
            input_image_bytes: self.n[26] as u16,
            output_image_bytes: self.n[27] as u16,
            memory_image_bytes: self.n[28] as u16,
        }
    }

    #[tactic(auto, using(crate::proofs::Bounds::at_most_1, crate::proofs::Bounds::at_most_2), unfolding(reading::specs::Numbers::bytes_le, reading::specs::Numbers::word_bytes))]
    fn header(self) -> FileHeader
        ensures { header_in result ≡ header_by (number_at self.n) }
    {
        FileHeader {
            magic: MAGIC,
            format_version: self.n[1] as u16,
            profile: self.n[2] as u8,
            flags: self.n[3] as u8,
            content_hash: NO_HASH,
            reserved_hash_slot: NO_HASH,
            debug_hash: NO_HASH,
            layout_hash: NO_HASH,
            sections: self.directory(),
            runtime: self.runtime(),
            reserved: Reserved([0; 38]),
        }
    }

    #[tactic(auto, using(crate::proofs::Bounds::at_most_2))]
    fn task_counts(self) -> TaskCounts
        ensures { task_counts_in result ≡ task_counts_by (number_at self.n) }
    {
        TaskCounts {
            tasks: self.n[29] as u16,
            programs: self.n[30] as u16,
            shared_globals_size: self.n[31] as u16,
        }
    }

    #[tactic(auto, using(crate::proofs::Bounds::at_most_2))]
    fn type_counts(self) -> Option<TypeCounts>
        ensures { maybe_types result ≡ type_counts_by (number_at self.n) }
    {
        (self.n[TYPES_FLAG] != 0).then_some(TypeCounts {
            fb_types: self.n[33] as u16,
            arrays: self.n[34] as u16,
            user_fbs: self.n[35] as u16,
        })
    }

    #[tactic(auto, using(crate::proofs::Bounds::at_most_2))]
    fn debug_counts(self) -> Option<DebugCounts>
        ensures { maybe_debug result ≡ debug_counts_by (number_at self.n) }
    {
        (self.n[DEBUG_FLAG] != 0).then_some(DebugCounts {
            lines: self.n[38] as u16,
            variables: self.n[39] as u16,
            functions: self.n[40] as u16,
            strings: self.n[41] as u16,
            files: self.n[42] as u16,
            enumerations: self.n[43] as u16,
        })
    }

    // The record. The rows in force are not read back.
    #[tactic(auto, using(crate::proofs::Bounds::at_most_2))]
    pub fn record(self) -> Container
        ensures { container_in result ≡ record_by (number_at self.n) }
    {
        Container {
            header: self.header(),
            tasks: self.task_counts(),
            types: self.type_counts(),
            constants: self.n[36] as u16,
            debug: self.debug_counts(),
            in_force: none_in_force(),
        }
    }
}
