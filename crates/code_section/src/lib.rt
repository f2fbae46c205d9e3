// The code section: a directory of functions, and their bytecode behind it.
#![tactic(auto)]

ghost use Rattle.std.specs.Prelude.{◌≡◌, ◌+◌, ◌≤◌, length, drop};
ghost use Rattle.std.proofs.Common.{rules};
ghost use Rattle.reading.specs.Reader.{got};
ghost use Rattle.reading.proofs.Left.{stays-local};
ghost use Rattle.reading.proofs.Width.{fixed-width};
ghost use Rattle.format.specs.Code.{Function, function};
ghost use Rattle.format.proofs.Readers.{local-function};
ghost use Rattle.format.proofs.Widths.{function-fixed};
ghost use Rattle.base.specs.Answers.{as_it_is, got_from, next_from};
ghost use Rattle.base.specs.Error.{fault_of};
ghost use Rattle.base.specs.Section.{place_in, part_in, PartWithin, bytes_or};
ghost use Rattle.code_section.specs.Answers.{func_in};
ghost use Rattle.code_section.specs.Lookups.{func_entry_size, code_reads, function_in, function_at, bytecode_at, directory_at, next_function_at};
ghost use Rattle.code_section.specs.Laws.{Laws};

use base::cut::Cut;
use base::entry::{Entry, OneWidth, Plain, find_by_width, pass, step};
use base::error::ContainerError;
use base::id_types::FunctionId;
use base::section::{Part, Section, part_bytes, section_cut};
use reading::{Table, u16_at, u32_at};

const FUNC_ENTRY_SIZE: usize = 16;

// A function's entry in the directory.
#[derive(Clone, Copy)]
pub struct FuncEntry {
    pub function_id: FunctionId,
    pub code_offset: u32,
    pub code_length: u32,
    pub max_stack_depth: u16,
    pub num_locals: u16,
    pub num_params: u16,
}

// The entry at the place `at` of the section `s`.
fn entry_at(s: &[u8], at: usize) -> FuncEntry
    requires { at + func_entry_size ≤ length s.now }
    ensures { function (drop at s.now) ≡ got (func_in result) (drop (at + func_entry_size) s.now) }
{
    FuncEntry {
        function_id: FunctionId(u16_at(s, at)),
        code_offset: u32_at(s, at + 2),
        code_length: u32_at(s, at + 6),
        max_stack_depth: u16_at(s, at + 10),
        num_locals: u16_at(s, at + 12),
        num_params: u16_at(s, at + 14),
    }
}

impl Entry for FuncEntry {
    type Error = ContainerError;

    ghost Kept = { Function };

    ghost kept = { func_in };

    ghost told = { λ _. fault_of };

    ghost reader = { λ _. function };

    ghost stays = { λ _ s. stays-local s local-function };

    fn read(cut: Cut, at: usize) -> Result<(Self, usize), ContainerError> {
        if cut.left(at) < FUNC_ENTRY_SIZE {
            return Err(ContainerError::ShortInput);
        }
        Ok((entry_at(cut.bytes, at), at + FUNC_ENTRY_SIZE))
    }
}

impl OneWidth for FuncEntry {
    const WIDTH: usize = FUNC_ENTRY_SIZE;

    ghost WIDTH = { func_entry_size };

    ghost width = { λ _. (Prim.search rules, fixed-width function-fixed) };
}

impl Plain for FuncEntry {
    ghost fixed = { λ _. function-fixed };
}

// The section's reader: the directory of `num_functions` entries must be there.
pub fn read_from(s: &[u8], num_functions: u16) -> Result<(), ContainerError>
    ensures { got_from as_it_is result ≡ code_reads num_functions s.now }
{
    pass::<FuncEntry>(Cut::of(s), 0, num_functions as usize).ok_or(ContainerError::ShortInput)?;
    Ok(())
}

// The table that the directory is.
fn directory(num_functions: u16) -> Table
    ensures { result ≡ record { at = 0; count = num_functions } }
{
    Table {
        at: 0,
        count: num_functions as usize,
    }
}

// The function at a position of the section's directory.
fn find(cut: Cut, num_functions: u16, function_id: FunctionId) -> Result<FuncEntry, ContainerError>
    ensures { got_from func_in result ≡ function_in num_functions cut.entry.bytes.now function_id.0 }
{
    read_from(cut.bytes, num_functions)?;
    find_by_width(cut, directory(num_functions), function_id.0)?.ok_or(ContainerError::NoFunction)
}

// The function at a position of the directory, never by its stored id.
#[tactic(auto, using(base::proofs::FileLookups::lookup_err, base::proofs::FileLookups::lookup_ok))]
pub fn get_function(
    file: &[u8],
    section: Section,
    num_functions: u16,
    function_id: FunctionId,
) -> Result<FuncEntry, ContainerError>
    ensures { got_from func_in result ≡ function_at file.now (place_in section) num_functions function_id.0 }
{
    find(section_cut(file, section)?, num_functions, function_id)
}

// A function's bytecode, by its place in the file.
pub fn bytecode_part(
    file: &[u8],
    section: Section,
    num_functions: u16,
    function_id: FunctionId,
) -> Result<Part, ContainerError>
    ensures { (got_from part_in result ≡ bytecode_at file.now (place_in section) num_functions function_id.0) × PartWithin file.now result }
{
    let f = get_function(file, section, num_functions, function_id)?;
    let directory = FUNC_ENTRY_SIZE * (num_functions as usize);
    let start = f.code_offset as usize;
    let length = f.code_length as usize;
    if (section.size as usize) - directory < start + length {
        return Err(ContainerError::NoFunction);
    }
    Ok(Part {
        offset: (section.offset as usize) + directory + start,
        size: length,
    })
}

// A function's bytecode: that part of the file, or an empty part where `bytecode_part` refuses.
pub fn get_function_bytecode(
    file: &[u8],
    section: Section,
    num_functions: u16,
    function_id: FunctionId,
) -> &[u8]
    ensures { result.now ≡ bytes_or file.now (bytecode_at file.now (place_in section) num_functions function_id.0) }
{
    part_bytes(
        file,
        bytecode_part(file, section, num_functions, function_id),
    )
}

// Where a walk over the directory starts.
#[tactic(auto, using(base::proofs::FileLookups::lookup_err, base::proofs::FileLookups::lookup_ok))]
pub fn functions(file: &[u8], section: Section, num_functions: u16) -> Result<Table, ContainerError>
    ensures { got_from as_it_is result ≡ directory_at file.now (place_in section) num_functions }
{
    read_from(section_cut(file, section)?.bytes, num_functions)?;
    Ok(directory(num_functions))
}

// The next entry of a walk over the directory.
#[tactic(auto, using(base::proofs::FileLookups::walk_err, base::proofs::FileLookups::walk_ok))]
pub fn next_function(
    file: &[u8],
    section: Section,
    t: Table,
) -> Result<Option<(FuncEntry, Table)>, ContainerError>
    ensures { next_from func_in result ≡ next_function_at file.now (place_in section) t }
{
    step(section_cut(file, section)?, t)
}

// The claims of `specs/Laws.antt` hold. Empty body: the contract makes the checker prove them.
pub fn laws_hold()
    ensures { Laws }
{}
