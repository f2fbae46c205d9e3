// What the programs share: room for a file and one byte more, reading it from standard input, and writing to standard output. A longer input is cut one byte
// beyond the programs' limit; a program then answers as for the whole of it (`read-on` of `format`'s claims).
#![tactic(auto)]

ghost use Rattle.std.specs.Prelude.{◌+◌, ◌≡◌, take, replicate};
ghost use Rattle.std.specs.Counts.{IsPrefixLen};
ghost use Rattle.format.specs.Parts.{program_limit};

use base::section::PROGRAM_LIMIT;
use std::io::Read;

// One byte beyond the programs' limit.
pub const FILE_ROOM: usize = PROGRAM_LIMIT + 1;

// Zeros.
pub fn file_room() -> [u8; FILE_ROOM]
    ensures { result ≡ replicate (program_limit + 1) 0 }
{
    [0; FILE_ROOM]
}

// Reads until `room` is full, the input ends or a read fails; the result is how many bytes of `room` are filled.
// Kept: a loop of its own, since std's `read_exact` does not say how many bytes it read of an input that ends early.
pub fn read_full(input: &mut impl Read, room: &mut [u8]) -> usize
    ensures { IsPrefixLen result room.new }
{
    let mut done = 0;
    while done < room.len() {
        match input.read(&mut room[done..]) {
            Ok(0) | Err(_) => break,
            Ok(n) => done += n,
        }
    }
    done
}

// Reads standard input until `room` is full, the input ends or a read fails; the result is how many bytes of `room` are filled. With less room
// a longer input would pass for one within the limit.
pub fn read_input(rt: &impl Input, room: &mut [u8; FILE_ROOM]) -> usize
    ensures { IsPrefixLen result room.new }
{
    read_full(&mut rt.reader(), room)
}

// The first n bytes, or all of them if there are fewer.
pub fn first(bytes: &[u8], n: usize) -> &[u8]
    ensures { result.now ≡ take n bytes.now }
{
    bytes.get(..n).unwrap_or(bytes)
}

// Writes to standard output. A write that fails is not reported.
pub fn write(rt: &impl Print, bytes: &[u8]) {
    let _ = rt.write_all(bytes);
}

// Writes a number in decimal. A write that fails is not reported.
pub fn write_decimal(rt: &impl Print, n: u64) {
    let _ = rt.print(n);
}
