// Each lookup over a file and a record, by its kind, as numbers.
#![tactic(auto)]

pub mod kinds;

ghost use Rattle.std.specs.Prelude.{◌≡◌};
ghost use Rattle.record.specs.Answers.{container_in};
ghost use Rattle.answer_numbers.specs.Answers.{numbers_of};
ghost use Rattle.lookup_kinds.specs.Kinds.{kind_number, looked_up};
ghost use Rattle.lookup_kinds.specs.Laws.{Laws};

use crate::kinds::Kind;
use answer_numbers::{Numbers, answer_numbers, no_numbers};
use base::id_types::{ConstantIndex, FunctionId, SourceFileId};
use record::Container;

// The lookup of a kind. Out of line: within `lookup` its answer would be copied once more.
#[tactic(auto, unfolding(crate::specs::Kinds::looked_up, crate::specs::Kinds::lookups_of))]
#[inline(never)]
fn of_kind(c: Container, file: &[u8], kind: Kind, index: u16, second: u16) -> Numbers
    ensures { result ≡ numbers_of (looked_up file.now (container_in c) (kind_number kind) index second) }
{
    let constant = ConstantIndex(index);
    let function = FunctionId(index);
    // Kept: each arm calls another method, whose answer has a type of its own.
    match kind {
        Kind::Task => answer_numbers(c.task(file, index)),
        Kind::Program => answer_numbers(c.program(file, index)),
        Kind::FbType => answer_numbers(c.fb_type(file, index)),
        Kind::Field => answer_numbers(c.field(file, index, second)),
        Kind::Array => answer_numbers(c.array(file, index)),
        Kind::ArraySize => answer_numbers(c.array_size(file, index)),
        Kind::UserFb => answer_numbers(c.user_fb(file, index)),
        Kind::Constant => answer_numbers(c.constant(file, constant)),
        Kind::GetI32 => answer_numbers(c.get_i32(file, constant)),
        Kind::GetU32 => answer_numbers(c.get_u32(file, constant)),
        Kind::GetI64 => answer_numbers(c.get_i64(file, constant)),
        Kind::GetU64 => answer_numbers(c.get_u64(file, constant)),
        Kind::GetF32 => answer_numbers(c.get_f32(file, constant)),
        Kind::GetF64 => answer_numbers(c.get_f64(file, constant)),
        Kind::GetStr => answer_numbers(c.string_part(file, constant)),
        Kind::CharWidth => answer_numbers(c.char_width(file, constant)),
        Kind::Function => answer_numbers(c.get_function(file, function)),
        Kind::Bytecode => answer_numbers(c.bytecode_part(file, function)),
        Kind::Line => answer_numbers(c.lookup_source_location(file, function, second)),
        Kind::LineEntry => answer_numbers(c.line(file, index)),
        Kind::Variable => answer_numbers(c.variable(file, index)),
        Kind::FunctionName => answer_numbers(c.function_name(file, index)),
        Kind::StringLayout => answer_numbers(c.string_layout(file, index)),
        Kind::SourceFile => answer_numbers(c.source_file(file, SourceFileId(index))),
        Kind::Enumeration => answer_numbers(c.enumeration(file, index)),
        Kind::EnumerationValue => answer_numbers(c.enumeration_value(file, index, second)),
    }
}

// The lookup of the kind with a number; an unknown kind has no numbers.
pub fn lookup(c: Container, file: &[u8], kind: u16, index: u16, second: u16) -> Numbers
    ensures { result ≡ numbers_of (looked_up file.now (container_in c) kind index second) }
{
    match Kind::try_from(kind) {
        Ok(kind) => of_kind(c, file, kind, index, second),
        Err(_) => no_numbers(),
    }
}

// The laws of `specs/Laws.antt` hold. Empty body: the contract makes the checker prove them.
pub fn laws_hold()
    ensures { Laws }
{}
