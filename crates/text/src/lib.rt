// Text in a buffer that the caller lends: numbers in decimal, bytes in hexadecimal, lines of them. A line that fits is written at the place `at`,
// and the place behind it is returned; a line that does not fit leaves the buffer unchanged.
// Kept: no `Display`, since `write!` would write a part of a line that does not fit.
#![tactic(auto)]

ghost use Rattle.std.specs.Prelude.{◌+◌, ◌*◌, ◌<◌, ◌≤◌, ◌≡◌, ◌++◌, leb, length, MatchOption};
ghost use Rattle.lent.specs.Output.{Wrote, Puts};
ghost use Rattle.text.specs.Text.{ascii, decimal, numbers, hexes, hex_or_dash, ended, line, dash_line, bytes_line};
ghost use Rattle.text.specs.Laws.{Laws};

use hex::encode_to_slice;
use itoa::write_digits;
use lent::put;

// A space and the digits of the largest u64.
const MOST_OF_NUMBER: usize = 21;

// Writing a text that fits.

// How many decimal digits n has.
fn decimal_length(n: u64) -> usize
    ensures { result ≡ length (decimal n) }
{
    match n.checked_ilog10() {
        None => 1,
        Some(power) => power as usize + 1,
    }
}

// The digits are written where they belong: a copy from a buffer of their own takes longer than making them.
fn put_decimal(out: &mut [u8], at: usize, n: u64) -> usize
    requires { at + length (decimal n) ≤ length out.old }
    ensures { Wrote out.old at (decimal n) out.new result }
{
    let end = at + decimal_length(n);
    write_digits(n, out, end);
    end
}

// A space and n.
fn put_number(out: &mut [u8], at: usize, n: u64) -> usize
    requires { at + length (ascii " " ++ decimal n) ≤ length out.old }
    ensures { Wrote out.old at (ascii " " ++ decimal n) out.new result }
{
    let next = put(out, at, b" ");
    put_decimal(out, next, n)
}

// A space and a number, for each.
fn put_numbers(out: &mut [u8], at: usize, ns: &[u64]) -> usize
    requires { at + length (numbers ns.now) ≤ length out.old }
    ensures { Wrote out.old at (numbers ns.now) out.new result }
{
    let mut next = at;
    for &n in ns {
        next = put_number(out, next, n);
    }
    next
}

// Bytes in hexadecimal, two digits for each: `encode_to_slice` has just the room that it asks for.
#[tactic(auto, using(crate::proofs::Parts::hexes_length))]
fn put_hex(out: &mut [u8], at: usize, bytes: &[u8]) -> usize
    requires { at + length (hexes bytes.now) ≤ length out.old }
    ensures { Wrote out.old at (hexes bytes.now) out.new result }
{
    let end = at + 2 * bytes.len();
    encode_to_slice(bytes, &mut out[at..end]).ok();
    end
}

// Bytes in hexadecimal, or a dash if there are none.
#[tactic(auto, using(crate::proofs::Parts::hex_none, crate::proofs::Parts::hex_some, crate::proofs::Parts::hexes_length))]
fn put_hex_or_dash(out: &mut [u8], at: usize, bytes: &[u8]) -> usize
    requires { at + length (hex_or_dash bytes.now) ≤ length out.old }
    ensures { Wrote out.old at (hex_or_dash bytes.now) out.new result }
{
    if bytes.is_empty() {
        return put(out, at, b"-");
    }
    put_hex(out, at, bytes)
}

// A word, numbers, and an end.
fn put_ended(out: &mut [u8], at: usize, word: &[u8], ns: &[u64], end: &[u8]) -> usize
    requires { at + length (ended word.now ns.now end.now) ≤ length out.old }
    ensures { Wrote out.old at (ended word.now ns.now end.now) out.new result }
{
    let next = put(out, at, word);
    let next = put_numbers(out, next, ns);
    put(out, next, end)
}

// Whether a text fits. No sum can overflow: the room that is left is counted down step by step.

// Whether a space and a number, for each, fit into `left` bytes.
fn numbers_fit(left: usize, ns: &[u64]) -> bool
    ensures { result ≡ leb (length (numbers ns.now)) left }
{
    let mut rest = left;
    for &n in ns {
        let size = 1 + decimal_length(n);
        if rest < size {
            return false;
        }
        rest -= size;
    }
    true
}

// How many of `len` bytes are left behind the place `at`, a word and an end.
fn left_of(len: usize, at: usize, word: usize, end: usize) -> Option<usize>
    ensures { MatchOption result (len < at + word + end) (λ left. at + word + end + left ≡ len) }
{
    len.checked_sub(at)?.checked_sub(word)?.checked_sub(end)
}

// Whether a word, numbers and an end fit behind the place `at` of `len` bytes. Where numbers of any length fit they are not measured.
#[tactic(auto, using(crate::proofs::Parts::numbers_short))]
fn fits(len: usize, at: usize, word: usize, ns: &[u64], end: usize) -> bool
    ensures { result ≡ leb (at + (word + length (numbers ns.now) + end)) len }
{
    match left_of(len, at, word, end) {
        None => false,
        Some(left) => ns.len() <= left / MOST_OF_NUMBER || numbers_fit(left, ns),
    }
}

// The length of bytes in hexadecimal, or of the dash if there are none.
#[tactic(auto, using(crate::proofs::Parts::hex_none, crate::proofs::Parts::hex_some, crate::proofs::Parts::hexes_length))]
fn hex_length(bytes: &[u8]) -> usize
    requires { 2 * length bytes.now < 18446744073709551616 }
    ensures { result ≡ length (hex_or_dash bytes.now) }
{
    if bytes.is_empty() {
        return 1;
    }
    2 * bytes.len()
}

// Writing a line, if it fits.

// A line of a word and numbers, and what it ends in.
#[tactic(auto, using(crate::proofs::Parts::ended_length), unfolding(lent::specs::Output::put_answer, lent::specs::Output::put_or))]
fn put_line_to(out: &mut [u8], at: usize, word: &[u8], ns: &[u64], end: &[u8]) -> Option<usize>
    ensures { Puts out.old at (ended word.now ns.now end.now) out.new result }
{
    if !fits(out.len(), at, word.len(), ns, end.len()) {
        return None;
    }
    Some(put_ended(out, at, word, ns, end))
}

// A line of a word and numbers.
pub fn put_line(out: &mut [u8], at: usize, word: &[u8], ns: &[u64]) -> Option<usize>
    ensures { Puts out.old at (line word.now ns.now) out.new result }
{
    put_line_to(out, at, word, ns, b"\n")
}

// A line that ends in a dash, for a value that is absent.
pub fn put_dash_line(out: &mut [u8], at: usize, word: &[u8], ns: &[u64]) -> Option<usize>
    ensures { Puts out.old at (dash_line word.now ns.now) out.new result }
{
    put_line_to(out, at, word, ns, b" -\n")
}

// A line that ends in bytes, or in a dash if there are none. What the first test rejects would not fit even with an empty word: a space, the
// digits and the line's end.
#[tactic(auto, using(crate::proofs::Parts::bytes_line_length), unfolding(lent::specs::Output::put_answer, lent::specs::Output::put_or))]
pub fn put_bytes_line(
    out: &mut [u8],
    at: usize,
    word: &[u8],
    ns: &[u64],
    bytes: &[u8],
) -> Option<usize>
    ensures { Puts out.old at (bytes_line word.now ns.now bytes.now) out.new result }
{
    if out.len() / 2 <= bytes.len() {
        return None;
    }
    let end = hex_length(bytes) + 2;
    if !fits(out.len(), at, word.len(), ns, end) {
        return None;
    }
    let next = put_ended(out, at, word, ns, b" ");
    let next = put_hex_or_dash(out, next, bytes);
    Some(put(out, next, b"\n"))
}

// The claims of `specs/Laws.antt` hold. Empty body: the contract makes the checker prove them.
pub fn laws_hold()
    ensures { Laws }
{}
