// Runs BLAKE3's published vectors, the lines of data/blake3-vectors.txt: an input's length and its digest in hexadecimal.
// Byte i of an input is i mod 251. Each input is hashed whole, in parts of uneven lengths, and in two parts through a lent
// state. Inputs at the hash limit, one byte over it, and beyond a state's capacity follow.
#![tactic(auto)]

ghost use Rattle.std.specs.Prelude.{◌<◌};

use base::digest::{Digest, HASH_LEN};
use base::error::ContainerError;
use blake3::HASH_LIMIT;
use compression::{BLOCK_LEN, CHUNK_LEN};
use hasher::{CAPACITY, Hasher};
use programs::{first, read_full, write, write_decimal};
use std::fs::File;

// Twice as many bytes as a state takes in.
const TWICE: usize = 2 * CAPACITY;

// The fewest bytes of which one more chaining value would wait than a state has places for, if it took them all in.
const NO_PLACE_LEFT: usize = TWICE - CHUNK_LEN + 1;

// More than the file has.
const FILE_ROOM: usize = 65536;

fn fill(input: &mut [u8]) {
    for (i, byte) in input.iter_mut().enumerate() {
        *byte = (i % 251) as u8;
    }
}

// A digest in hexadecimal.
fn text_of(digest: Digest) -> [u8; 2 * HASH_LEN] {
    let mut text = [0; 2 * HASH_LEN];
    let _ = hex::encode_to_slice(digest.bytes(), &mut text);
    text
}

// The lengths of the parts that an input is fed in, over and over.
// Kept: a `match`. Of an array of lengths it would have to be said and proved beside it that none is 0, so that the feeding ends.
fn part_length(turn: usize) -> usize
    ensures { 0 < result }
{
    match turn {
        0 => 1,
        1 => BLOCK_LEN - 1,
        2 => BLOCK_LEN,
        3 => BLOCK_LEN + 1,
        4 => 200,
        5 => CHUNK_LEN - 1,
        6 => CHUNK_LEN,
        _ => CHUNK_LEN + 1,
    }
}

// The digest of an input that is fed in parts, by value.
fn in_parts(s: &[u8]) -> Result<Digest, ContainerError> {
    let mut h = Hasher::new();
    let mut rest = s;
    let mut turn = 0;
    while !rest.is_empty() {
        let (part, more) = rest.split_at(part_length(turn).min(rest.len()));
        let next = h.update(part);
        h = next;
        rest = more;
        turn = (turn + 1) % 8;
    }
    blake3::finish(h)
}

// The digest of an input that is fed in two parts, through a lent state.
fn in_two(s: &[u8]) -> Result<Digest, ContainerError> {
    let (first, second) = s.split_at(s.len() / 3);
    blake3::finish(blake3::fed_with(blake3::fed_with(Hasher::new(), first), second))
}

fn answered(rt: &impl Print, answer: Result<Digest, ContainerError>) {
    match answer {
        Err(error) => {
            write(rt, b" refused ");
            write_decimal(rt, u64::from(error.number()));
        }
        Ok(digest) => {
            write(rt, b" ");
            write(rt, &text_of(digest));
        }
    }
}

fn has_digits(answer: Result<Digest, ContainerError>, expected: &[u8]) -> bool {
    match answer {
        Err(_) => false,
        Ok(digest) => check::same(&text_of(digest), expected),
    }
}

// Whether an answer is a digest with the expected digits. If not, it is printed.
fn is_right(
    rt: &impl Print,
    way: &[u8],
    answer: Result<Digest, ContainerError>,
    expected: &[u8],
) -> bool {
    if has_digits(answer, expected) {
        return true;
    }
    write(rt, way);
    answered(rt, answer);
    false
}

// A vector: an input and the digits of its digest.
fn run(rt: &impl Print, s: &[u8], expected: &[u8]) {
    write_decimal(rt, s.len() as u64);
    if is_right(rt, b" wrong, whole:", blake3::hash(s), expected)
        && is_right(rt, b" wrong, in parts:", in_parts(s), expected)
        && is_right(rt, b" wrong, in two:", in_two(s), expected)
    {
        write(rt, b" ok");
    }
    write(rt, b"\n");
}

// An input whose digest is not given.
fn show(rt: &impl Print, s: &[u8]) {
    write_decimal(rt, s.len() as u64);
    answered(rt, blake3::hash(s));
    write(rt, b", in parts");
    answered(rt, in_parts(s));
    write(rt, b", in two");
    answered(rt, in_two(s));
    write(rt, b"\n");
}

// The number that the digits stand for; none if a byte is no digit, or if there is none.
fn decimal(digits: &[u8]) -> Option<usize> {
    let mut value = None;
    for digit in digits {
        let low = char::from(*digit).to_digit(10)?;
        value = Some(
            value
                .unwrap_or(0usize)
                .checked_mul(10)?
                .checked_add(low as usize)?,
        );
    }
    value
}

// The input and the digits of the digest that a line gives: the input's length, a space, the digits.
fn vector<'a>(line: &'a [u8], input: &'a [u8]) -> Option<(&'a [u8], &'a [u8])> {
    let mut words = line.splitn(2, |byte| *byte == b' ');
    let length = decimal(words.next()?)?;
    Some((input.get(..length)?, words.next()?))
}

// A line of the file. Its input is the first bytes of `input`.
fn line(rt: &impl Print, s: &[u8], input: &[u8]) {
    if s.is_empty() || s[0] == b'#' {
        return;
    }
    match vector(s, input) {
        Some((part, expected)) => run(rt, part, expected),
        None => {
            write(rt, b"malformed: ");
            write(rt, s);
            write(rt, b"\n");
        }
    }
}

fn lines(rt: &impl Print, file: &[u8], input: &[u8]) {
    for s in file.split(|byte| *byte == b'\n') {
        line(rt, s, input);
    }
}

// The hash limit, one byte over it, and two inputs beyond a state's capacity.
fn edges(rt: &impl Print, input: &[u8]) {
    for n in [HASH_LIMIT, HASH_LIMIT + 1, NO_PLACE_LEFT, TWICE] {
        show(rt, first(input, n));
    }
}

// Kept: rooms made by functions, since the check of a function that has so long an array in it runs out of stack.
fn room() -> [u8; TWICE] {
    [0; TWICE]
}

fn file_room() -> [u8; FILE_ROOM] {
    [0; FILE_ROOM]
}

fn main(rt: HostRuntime) {
    let path = "blake3-vectors.txt";
    match File::open(&rt, path) {
        Err(error) => {
            let _ = eprintln!(rt; "{path}: {error}");
        }
        Ok(vectors) => {
            let mut from = vectors;
            let mut file = file_room();
            let n = read_full(&mut from, &mut file);
            let mut input = room();
            fill(&mut input);
            lines(&rt, &file[..n], &input);
            edges(&rt, &input);
        }
    }
}
