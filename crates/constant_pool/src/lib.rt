// The constant pool of a container: its reader, its lookups and walks over it, over the file's own bytes. A lookup finds the entry at an index; what a
// getter answers is picked from that answer, by a function that needs neither the file nor the section.
#![tactic(auto)]

ghost use Rattle.std.specs.Prelude.{◌≡◌, true, ◌+◌, ◌-◌, ◌^◌, ◌≤◌, ◌<◌, ◌++◌, length, replicate, IfOk, IfSome};
ghost use Rattle.reading.specs.Numbers.{bytes_le};
ghost use Rattle.format.specs.Parts.{Place, part, by_place};
ghost use Rattle.format.specs.Constants.{Constant, constant, size_fits};
ghost use Rattle.format.proofs.Leaves.{stays-constant};
ghost use Rattle.base.specs.Answers.{as_it_is, got_from, next_from};
ghost use Rattle.base.specs.Cut.{place_of};
ghost use Rattle.base.specs.Error.{fault_of};
ghost use Rattle.base.specs.Small.{byte_width, const_type_number};
ghost use Rattle.base.specs.Section.{place_in, part_in, PartWithin, bytes_or};
ghost use Rattle.constant_pool.specs.Answers.{kept_in, KeptEnds, const_in};
ghost use Rattle.constant_pool.specs.Lookups.{kept_over, pool_count, pool_from, constant_in, constant_at, i32_at, u32_at, i64_at, u64_at, f32_at, f64_at, string_at, char_width_at, start_at, next_constant_at};
ghost use Rattle.constant_pool.specs.Picks.{value_picked, string_place_of, width_of};
ghost use Rattle.constant_pool.specs.Laws.{Laws};

use base::char_width::CharWidth;
use base::const_type::ConstType;
use base::cut::Cut;
use base::entry::{Entry, skip, step};
use base::error::ContainerError;
use base::id_types::ConstantIndex;
use base::section::{Part, Section, part_bytes, section_cut};
use reading::{Table, u8_at, u16_at, u32_at, u64_at};

pub mod number;

use number::Number;

// The count of the constants.
const COUNT_SIZE: usize = 2;

// An entry's type, width tag and size.
const HEAD_SIZE: usize = 4;

// What is kept of a constant.
#[derive(Clone, Copy, Debug, PartialEq, Eq)]
pub enum Kept {
    // A number: its eight bytes, low byte first.
    Number(u64),
    // A string: its part of the file.
    Part(Part),
}

#[derive(Clone, Copy, Debug, PartialEq, Eq)]
pub struct ConstEntry {
    pub const_type: ConstType,
    pub kept: Kept,
}

// The eight kept bytes of a number, low byte first.
pub fn number_bytes(n: u64) -> [u8; 8]
    ensures { result ≡ bytes_le 8 n }
{
    n.to_le_bytes()
}

// The number of `size` bytes at the place `at`; zeros fill its eight. A copy for every size would make a walk take three times as long.
fn number_at(s: &[u8], at: usize, size: usize) -> u64
    requires { (at + size ≤ length s.now) × (size ≤ 8) }
    ensures { bytes_le 8 result ≡ part at size s.now ++ replicate (8 - size) 0 }
{
    match size {
        8 => u64_at(s, at),
        4 => u32_at(s, at) as u64,
        2 => u16_at(s, at) as u64,
        1 => u8_at(s, at) as u64,
        _ => {
            let mut bytes = [0; 8];
            bytes[..size].copy_from_slice(&s[at..at + size]);
            u64_at(&bytes, 0)
        }
    }
}

// A number has at most eight bytes.
fn size_fits(const_type: ConstType, size: usize) -> bool
    ensures { result ≡ size_fits (const_type_number const_type) size }
{
    if const_type.is_string_like() {
        return true;
    }
    size <= 8
}

// What is kept of the `size` bytes at the place `at`.
fn kept_at(cut: Cut, at: usize, const_type: ConstType, size: usize) -> Kept
    requires size_in_bounds { at + size ≤ length cut.bytes.now }
    requires size_value { size_fits (const_type_number const_type) size ≡ true }
    ensures { kept_in result ≡ kept_over (place_of cut.entry) cut.entry.bytes.now (const_type_number const_type) at size }
{
    if const_type.is_string_like() {
        return Kept::Part(Part {
            offset: cut.offset + at,
            size,
        });
    }
    Kept::Number(number_at(cut.bytes, at, size))
}

impl Entry for ConstEntry {
    type Error = ContainerError;

    ghost Kept = { Constant Place };

    ghost kept = { const_in };

    ghost told = { λ _. fault_of };

    ghost reader = { λ p. constant (by_place p) };

    ghost stays = { λ p s. stays-constant s (by_place p) };

    fn read(cut: Cut, at: usize) -> Result<(Self, usize), ContainerError> {
        if cut.left(at) < HEAD_SIZE {
            return Err(ContainerError::ShortInput);
        }
        let const_type = ConstType::try_from(u8_at(cut.bytes, at))?;
        let size = u16_at(cut.bytes, at + 2) as usize;
        if !size_fits(const_type, size) {
            return Err(ContainerError::InvalidConstantType(const_type.number()));
        }
        let start = at + HEAD_SIZE;
        if cut.left(start) < size {
            return Err(ContainerError::ShortInput);
        }
        let kept = kept_at(cut, start, const_type, size);
        Ok((ConstEntry { const_type, kept }, start + size))
    }
}

// The entries from index `k` on. All entries are read.
fn table(cut: Cut, k: usize) -> Result<Table, ContainerError>
    ensures { (got_from as_it_is result ≡ pool_from (place_of cut.entry) cut.entry.bytes.now k)
        × IfOk result (λ t. t.count < 2 ^ 16) }
{
    if cut.left(0) < COUNT_SIZE {
        return Err(ContainerError::ShortInput);
    }
    let all = u16_at(cut.bytes, 0) as usize;
    let at = skip::<ConstEntry>(cut, COUNT_SIZE, k.min(all))?;
    let count = all.saturating_sub(k);
    skip::<ConstEntry>(cut, at, count)?;
    Ok(Table { at, count })
}

// The section's reader: its refusal, or the number of constants.
pub fn read_from(s: &[u8]) -> Result<u16, ContainerError>
    ensures { got_from as_it_is result ≡ pool_count s.now }
{
    Ok(table(Cut::of(s), 0)?.count as u16)
}

// The constant at an index of the section: the first entry from the index on.
fn find(cut: Cut, index: ConstantIndex) -> Result<ConstEntry, ContainerError>
    ensures { (got_from const_in result ≡ constant_in (place_of cut.entry) cut.entry.bytes.now index.0)
        × IfOk result (λ c. KeptEnds (cut.entry.offset + length cut.entry.bytes.now) c.kept) }
{
    match step(cut, table(cut, index.0 as usize)?)? {
        Some((constant, _)) => Ok(constant),
        None => Err(ContainerError::InvalidConstantIndex(index)),
    }
}

// The constant at an index; a string by its part of the file.
pub fn entry(
    file: &[u8],
    section: Section,
    index: ConstantIndex,
) -> Result<ConstEntry, ContainerError>
    ensures { (got_from const_in result ≡ constant_at file.now (place_in section) index.0)
        × IfOk result (λ c. KeptEnds (length file.now) c.kept) }
{
    find(section_cut(file, section)?, index)
}

// What a getter picks from the answer of a lookup, whichever way the entry was looked up.

// The number of a constant of the type `expected`; any other type is refused. Floats come as bits.
pub fn number_of<N: Number>(
    answer: Result<ConstEntry, ContainerError>,
    expected: ConstType,
) -> Result<N, ContainerError>
    ensures { got_from N.value result ≡ value_picked N.sense (const_type_number expected) N.width (got_from const_in answer) }
{
    let constant = answer?;
    match constant.kept {
        Kept::Number(n) if constant.const_type == expected => Ok(N::from_kept(n)),
        _ => Err(ContainerError::InvalidConstantType(constant.const_type.number())),
    }
}

// A string, Str or WStr, by its part of the file.
pub fn string_of(answer: Result<ConstEntry, ContainerError>) -> Result<Part, ContainerError>
    ensures { got_from part_in result ≡ string_place_of (got_from const_in answer) }
{
    let constant = answer?;
    match constant.kept {
        Kept::Part(p) => Ok(p),
        Kept::Number(_) => Err(ContainerError::InvalidConstantType(constant.const_type.number())),
    }
}

// Bytes per character of a string.
pub fn width_of(answer: Result<ConstEntry, ContainerError>) -> Result<CharWidth, ContainerError>
    ensures { got_from byte_width result ≡ width_of (got_from const_in answer) }
{
    let const_type = answer?.const_type;
    const_type
        .char_width()
        .ok_or(ContainerError::InvalidConstantType(const_type.number()))
}

// The getters: what is picked from the entry at an index.
// Kept: document 01 names one for each type. Each is the generic function at that type.

pub fn get_i32(file: &[u8], section: Section, index: ConstantIndex) -> Result<i32, ContainerError>
    ensures { got_from as_it_is result ≡ i32_at file.now (place_in section) index.0 }
{
    number_of(entry(file, section, index), ConstType::I32)
}

pub fn get_u32(file: &[u8], section: Section, index: ConstantIndex) -> Result<u32, ContainerError>
    ensures { got_from as_it_is result ≡ u32_at file.now (place_in section) index.0 }
{
    number_of(entry(file, section, index), ConstType::U32)
}

pub fn get_i64(file: &[u8], section: Section, index: ConstantIndex) -> Result<i64, ContainerError>
    ensures { got_from as_it_is result ≡ i64_at file.now (place_in section) index.0 }
{
    number_of(entry(file, section, index), ConstType::I64)
}

pub fn get_u64(file: &[u8], section: Section, index: ConstantIndex) -> Result<u64, ContainerError>
    ensures { got_from as_it_is result ≡ u64_at file.now (place_in section) index.0 }
{
    number_of(entry(file, section, index), ConstType::U64)
}

pub fn get_f32(file: &[u8], section: Section, index: ConstantIndex) -> Result<u32, ContainerError>
    ensures { got_from as_it_is result ≡ f32_at file.now (place_in section) index.0 }
{
    number_of(entry(file, section, index), ConstType::F32)
}

pub fn get_f64(file: &[u8], section: Section, index: ConstantIndex) -> Result<u64, ContainerError>
    ensures { got_from as_it_is result ≡ f64_at file.now (place_in section) index.0 }
{
    number_of(entry(file, section, index), ConstType::F64)
}

pub fn string_part(
    file: &[u8],
    section: Section,
    index: ConstantIndex,
) -> Result<Part, ContainerError>
    ensures { (got_from part_in result ≡ string_at file.now (place_in section) index.0) × PartWithin file.now result }
{
    string_of(entry(file, section, index))
}

// A string: that part of the file, or an empty part where `string_part` refuses.
pub fn get_str(file: &[u8], section: Section, index: ConstantIndex) -> &[u8]
    ensures { result.now ≡ bytes_or file.now (string_at file.now (place_in section) index.0) }
{
    part_bytes(file, string_part(file, section, index))
}

pub fn char_width(
    file: &[u8],
    section: Section,
    index: ConstantIndex,
) -> Result<CharWidth, ContainerError>
    ensures { got_from byte_width result ≡ char_width_at file.now (place_in section) index.0 }
{
    width_of(entry(file, section, index))
}

// Where a walk over the constants starts.
pub fn constants(file: &[u8], section: Section) -> Result<Table, ContainerError>
    ensures { got_from as_it_is result ≡ start_at file.now (place_in section) }
{
    table(section_cut(file, section)?, 0)
}

// The next constant of a walk.
pub fn next_constant(
    file: &[u8],
    section: Section,
    t: Table,
) -> Result<Option<(ConstEntry, Table)>, ContainerError>
    ensures { (next_from const_in result ≡ next_constant_at file.now (place_in section) t)
        × IfOk result (λ o. IfSome o (λ x. KeptEnds (length file.now) x.0.kept)) }
{
    step(section_cut(file, section)?, t)
}

// The claims of `specs/Laws.antt` hold. Empty body: the contract makes the checker prove them.
pub fn laws_hold()
    ensures { Laws }
{}
