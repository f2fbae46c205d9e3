// The reader for C and Rust. The library keeps nothing between calls; an answer is written into the buffer that the caller lends.
// An answer is numbers: a refusal's number and values, or 0 and the answer's fields. The result is their count; a buffer with room for fewer
// than 64 numbers gets none. A hash is written into a buffer of its own.
// Kept: kinds as numbers, and 0 for no answer, since C calls these.
#![tactic(auto)]

mod buffers;
mod loading;

ghost use Rattle.std.specs.Prelude.{◌≡◌};
ghost use Rattle.base.specs.Answers.{got_from};
ghost use Rattle.base.specs.Digest.{digest_bytes};
ghost use Rattle.blake3.specs.Blake3.{hash_asked};
ghost use Rattle.file_listing.specs.Texts.{file_listing};
ghost use Rattle.answer_numbers.specs.Answers.{numbers_of};
ghost use Rattle.lookup_kinds.specs.Kinds.{line_kind};
ghost use Rattle.capi.specs.Asked.{asked, looked_up_in, loaded, content_hash_asked};
ghost use Rattle.capi.specs.Laws.{AsAsked, Laws};
ghost use Rattle.capi.specs.Lent.{Answered, Hashed, Listed};

use crate::buffers::{ROOM, put_answer, put_hash};
use crate::loading::put_record;
use answer_numbers::{Numbers, no_numbers, refusal};
use container::{ContainerError, Digest, read_from};
use lookup_kinds::kinds::Kind;
use lookup_kinds::lookup;
use record_numbers::back::record_of_numbers;
use record_numbers::numbers_fit;

// A lookup over a file and the record that reading it yields.
fn ask(file: &[u8], kind: u16, index: u16, second: u16) -> Numbers
    ensures { result ≡ numbers_of (asked file.now kind index second) }
{
    match read_from(file) {
        Ok(c) => lookup(c, file, kind, index, second),
        Err(e) => refusal(e),
    }
}

// What reading a file yields: its refusal, or 0 and the record.
#[unsafe(no_mangle)]
pub extern "C" fn container_load(file: &[u8], out: &mut [u64]) -> usize
    ensures { Answered out.old (loaded file.now) out.new result }
{
    if out.len() < ROOM {
        return 0;
    }
    match read_from(file) {
        Ok(c) => put_record(out, c),
        Err(e) => put_answer(out, refusal(e)),
    }
}

// A lookup in a file that loads, by its kind, with one index or two.
#[unsafe(no_mangle)]
pub extern "C" fn container_ask(
    file: &[u8],
    kind: u16,
    index: u16,
    second: u16,
    out: &mut [u64],
) -> usize
    ensures { Answered out.old (asked file.now kind index second) out.new result }
{
    put_answer(out, ask(file, kind, index, second))
}

// A lookup over a file and the numbers that stand for a record; none if they stand for no record.
fn lookup_in_numbers(file: &[u8], record: &[u64], kind: u16, index: u16, second: u16) -> Numbers
    ensures { result ≡ numbers_of (looked_up_in file.now «record».now kind index second) }
{
    match record_of_numbers(record) {
        Some(c) => lookup(c, file, kind, index, second),
        None => no_numbers(),
    }
}

// A lookup over the numbers that `container_load` wrote, of this file or another, or over made-up ones. The file is not loaded again.
#[unsafe(no_mangle)]
pub extern "C" fn container_lookup(
    file: &[u8],
    record: &[u64],
    kind: u16,
    index: u16,
    second: u16,
    out: &mut [u64],
) -> usize
    ensures { Answered out.old (looked_up_in file.now «record».now kind index second) out.new result }
{
    put_answer(out, lookup_in_numbers(file, record, kind, index, second))
}

// The source location of a place in a function's bytecode: `container_ask` of the kind LINE.
#[unsafe(no_mangle)]
pub extern "C" fn container_line(file: &[u8], function: u16, offset: u16, out: &mut [u64]) -> usize
    ensures { Answered out.old (asked file.now line_kind function offset) out.new result }
{
    put_answer(out, ask(file, Kind::Line.number(), function, offset))
}

// The content hash in the header of a file that reads.
fn content_hash(file: &[u8]) -> Result<Digest, ContainerError>
    ensures { got_from digest_bytes result ≡ content_hash_asked file.now }
{
    Ok(read_from(file)?.header.content_hash)
}

// The same in the buffers: its 32 bytes in one, a 0 or a refusal in the other.
#[unsafe(no_mangle)]
pub extern "C" fn container_content_hash(file: &[u8], digest: &mut [u8], out: &mut [u64]) -> usize
    ensures { Hashed (content_hash_asked file.now) digest.old digest.new out.old out.new result }
{
    put_hash(content_hash(file), digest, out)
}

// BLAKE3 of any bytes.
#[unsafe(no_mangle)]
pub extern "C" fn container_hash(bytes: &[u8], digest: &mut [u8], out: &mut [u64]) -> usize
    ensures { Hashed (hash_asked bytes.now) digest.old digest.new out.old out.new result }
{
    put_hash(blake3::hash(bytes), digest, out)
}

// The listing of a file, and its length; 0 if it does not fit.
#[unsafe(no_mangle)]
pub extern "C" fn container_list(file: &[u8], out: &mut [u8]) -> usize
    ensures { Listed out.old (file_listing file.now) out.new result }
{
    file_listing::put_file(out, 0, file).unwrap_or(0)
}

// Over the numbers that `container_load` writes for this file `container_lookup` answers what `container_ask` answers. A law: the function reads the
// file only so that the checker knows what the record's fields hold.
pub fn lookup_as_asked(file: &[u8])
    ensures { AsAsked file.now }
{
    match read_from(file) {
        Ok(c) => numbers_fit(c),
        Err(_) => {}
    }
}

// The laws of `specs/Laws.antt` hold. Empty body: the contract makes the checker prove them.
pub fn laws_hold()
    ensures { Laws }
{}
