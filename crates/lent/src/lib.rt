// Output in buffers that the caller lends. Each function that writes at a place `at` returns the place behind what it wrote; the rest of the
// buffer is unchanged. A buffer of bytes and one of 64-bit numbers are written alike.
#![tactic(auto)]

ghost use Rattle.std.specs.Prelude.{◌+◌, ◌<◌, ◌≤◌, ◌≡◌, [], ◌∷◌, length};
ghost use Rattle.reading.specs.Numbers.{bytes_le};
ghost use Rattle.lent.specs.Output.{put_at_start, put_in, Wrote, Puts};
ghost use Rattle.lent.specs.Laws.{Laws};

// Writing where the caller has proved that there is room.

// Copies items to the start of a part of a buffer.
// Kept: a loop. Std's `copy_from_slice` over a length that is not known asks of a C program that it has `memmove`.
pub fn copy_to<T: Copy>(part: &mut [T], items: &[T])
    requires { length items.now ≤ length part.old }
    ensures { part.new ≡ put_at_start part.old items.now }
{
    for (i, item) in items.iter().enumerate() {
        part[i] = *item;
    }
}

// Copies items to the place `at`: the part of the buffer that starts there is lent on to the copy.
pub fn copy<T: Copy>(out: &mut [T], at: usize, items: &[T])
    requires { at + length items.now ≤ length out.old }
    ensures { out.new ≡ put_in out.old at items.now }
{
    copy_to(&mut out[at..], items);
}

pub fn put<T: Copy>(out: &mut [T], at: usize, items: &[T]) -> usize
    requires { at + length items.now ≤ length out.old }
    ensures { Wrote out.old at items.now out.new result }
{
    copy(out, at, items);
    at + items.len()
}

// Numbers as bytes, low byte first.
// Kept: one function for each width. A trait of the three widths with its impls would be longer than these three bodies.

pub fn put_u16(out: &mut [u8], at: usize, n: u16) -> usize
    requires { at + 2 ≤ length out.old }
    ensures { (result ≡ at + 2) × Wrote out.old at (bytes_le 2 n) out.new result }
{
    put(out, at, &u16::to_le_bytes(n))
}

pub fn put_u32(out: &mut [u8], at: usize, n: u32) -> usize
    requires { at + 4 ≤ length out.old }
    ensures { (result ≡ at + 4) × Wrote out.old at (bytes_le 4 n) out.new result }
{
    put(out, at, &u32::to_le_bytes(n))
}

pub fn put_u64(out: &mut [u8], at: usize, n: u64) -> usize
    requires { at + 8 ≤ length out.old }
    ensures { (result ≡ at + 8) × Wrote out.old at (bytes_le 8 n) out.new result }
{
    put(out, at, &u64::to_le_bytes(n))
}

// A text, if it fits; else the buffer is unchanged.
#[tactic(auto, unfolding(crate::specs::Output::put_answer, crate::specs::Output::put_or))]
pub fn put_text(out: &mut [u8], at: usize, text: &[u8]) -> Option<usize>
    ensures { Puts out.old at text.now out.new result }
{
    if out.len().checked_sub(at)? < text.len() {
        return None;
    }
    Some(put(out, at, text))
}

// The claims of `specs/Laws.antt` hold. Empty body: the contract makes the checker prove them.
pub fn laws_hold()
    ensures { Laws }
{}
