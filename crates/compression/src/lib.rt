// BLAKE3's compression function. Each contract says that the result equals a definition in specs/.
#![tactic(auto)]

ghost use Rattle.std.specs.Prelude.{◌≡◌, ◌+◌, ◌<◌, ◌≤◌, ◌++◌, length, drop};
ghost use Rattle.compression.specs.Word as Word;
ghost use Rattle.compression.specs.Compression as Compression;
ghost use Rattle.compression.specs.Rows as Rows;
ghost use Rattle.compression.specs.Chain.{start_flag};
ghost use Rattle.compression.specs.Sizes.{block_len};

use std::array;

// The bytes of a block, and of a chunk.
pub const BLOCK_LEN: usize = 64;

pub const CHUNK_LEN: usize = 1024;

// The number of a chunk's last block, counted from 0, and where in the chunk that block starts.
pub const LAST_BLOCK: usize = CHUNK_LEN / BLOCK_LEN - 1;

pub const LAST_BLOCK_START: usize = CHUNK_LEN - BLOCK_LEN;

// The flags of a compression.
pub const CHUNK_START: u32 = 1;

pub const CHUNK_END: u32 = 2;

pub const PARENT: u32 = 4;

pub const ROOT: u32 = 8;

// The first 32 bits of the fractional parts of the square roots of the first eight primes.
const IV: [u32; 8] = [
    0x6A09E667, 0xBB67AE85, 0x3C6EF372, 0xA54FF53A, 0x510E527F, 0x9B05688C, 0x1F83D9AB, 0x5BE0CD19,
];

// The chaining value before any input.
pub fn iv() -> [u32; 8]
    ensures { result ≡ Compression.iv }
{
    IV
}

// x rotated right by n.
#[tactic(auto, using(crate::proofs::Rotations::rotated))]
fn rotr(x: u32, n: u32) -> u32
    requires { (0 < n) × (n < 32) }
    ensures { result ≡ Word.rotr n x }
{
    x.rotate_right(n)
}

// The state is a square of words. A round works on its rows, on four words at a time; here a + b.
#[tactic(auto, unfolding(crate::specs::Rows::sum))]
fn sum(a: [u32; 4], b: [u32; 4]) -> [u32; 4]
    ensures { result ≡ Rows.sum a b }
{
    array::from_fn(|i| a[i].wrapping_add(b[i]))
}

// a + b + x.
fn sum3(a: [u32; 4], b: [u32; 4], x: [u32; 4]) -> [u32; 4]
    ensures { result ≡ Rows.sum3 a b x }
{
    sum(sum(a, b), x)
}

// a ^ b, each word rotated right by n.
#[tactic(auto, unfolding(crate::specs::Rows::turn))]
#[inline(always)]
fn turn(a: [u32; 4], b: [u32; 4], n: u32) -> [u32; 4]
    requires { (0 < n) × (n < 32) }
    ensures { result ≡ Rows.turn n a b }
{
    array::from_fn(|i| rotr(a[i] ^ b[i], n))
}

// The state with the rows a, b, c, d.
// Kept: here and in `shifted`, `back` and `permute` the words are written out: by a table of places, `ORDER.map(|i| m[i])`, a hash takes 5 times
// as long.
fn square(a: [u32; 4], b: [u32; 4], c: [u32; 4], d: [u32; 4]) -> [u32; 16]
    ensures { result ≡ Rows.square a b c d }
{
    [
        a[0], a[1], a[2], a[3], b[0], b[1], b[2], b[3], c[0], c[1], c[2], c[3], d[0], d[1], d[2],
        d[3],
    ]
}

// Four quarter-rounds side by side, on the columns of the state: first the words x of the message, then y.
#[tactic(auto, unfolding(crate::specs::Rows::half))]
#[inline(always)]
pub fn half(v: [u32; 16], x: [u32; 4], y: [u32; 4]) -> [u32; 16]
    ensures { result ≡ Rows.half v x y }
{
    let a0 = [v[0], v[1], v[2], v[3]];
    let b0 = [v[4], v[5], v[6], v[7]];
    let c0 = [v[8], v[9], v[10], v[11]];
    let d0 = [v[12], v[13], v[14], v[15]];
    let a1 = sum3(a0, b0, x);
    let d1 = turn(d0, a1, 16);
    let c1 = sum(c0, d1);
    let b1 = turn(b0, c1, 12);
    let a2 = sum3(a1, b1, y);
    let d2 = turn(d1, a2, 8);
    let c2 = sum(c1, d2);
    let b2 = turn(b1, c2, 7);
    square(a2, b2, c2, d2)
}

// The rows below the first shifted by 1, 2 and 3 places, which makes columns of the diagonals.
#[tactic(auto, unfolding(crate::specs::Rows::shifted))]
#[inline(always)]
pub fn shifted(v: [u32; 16]) -> [u32; 16]
    ensures { result ≡ Rows.shifted v }
{
    [
        v[0], v[1], v[2], v[3], v[5], v[6], v[7], v[4], v[10], v[11], v[8], v[9], v[15], v[12],
        v[13], v[14],
    ]
}

// The rows shifted back.
#[tactic(auto, unfolding(crate::specs::Rows::back))]
#[inline(always)]
pub fn back(v: [u32; 16]) -> [u32; 16]
    ensures { result ≡ Rows.back v }
{
    [
        v[0], v[1], v[2], v[3], v[7], v[4], v[5], v[6], v[10], v[11], v[8], v[9], v[13], v[14],
        v[15], v[12],
    ]
}

// A round: the four columns, then the four diagonals.
#[inline(always)]
pub fn round(v: [u32; 16], m: [u32; 16]) -> [u32; 16]
    ensures { result ≡ Compression.round v m }
{
    let columns = half(v, [m[0], m[2], m[4], m[6]], [m[1], m[3], m[5], m[7]]);
    let diagonals = half(
        shifted(columns),
        [m[8], m[10], m[12], m[14]],
        [m[9], m[11], m[13], m[15]],
    );
    back(diagonals)
}

// The order in which the next round takes the words of the message.
#[inline(always)]
pub fn permute(m: [u32; 16]) -> [u32; 16]
    ensures { result ≡ Compression.permute m }
{
    [
        m[2], m[6], m[3], m[10], m[7], m[0], m[4], m[13], m[1], m[11], m[12], m[5], m[9], m[14],
        m[15], m[8],
    ]
}

// The seven rounds, one after the other, so that no message is permuted at run time.
fn rounds(v: [u32; 16], m: [u32; 16]) -> [u32; 16]
    ensures { result ≡ Compression.rounds 7 v m }
{
    let v1 = round(v, m);
    let m1 = permute(m);
    let v2 = round(v1, m1);
    let m2 = permute(m1);
    let v3 = round(v2, m2);
    let m3 = permute(m2);
    let v4 = round(v3, m3);
    let m4 = permute(m3);
    let v5 = round(v4, m4);
    let m5 = permute(m4);
    let v6 = round(v5, m5);
    let m6 = permute(m5);
    round(v6, m6)
}

// The state that compression starts from.
#[inline(always)]
pub fn start(h: [u32; 8], t: u64, block_len: u32, flags: u32) -> [u32; 16]
    ensures { result ≡ Compression.start h t block_len flags }
{
    [
        h[0],
        h[1],
        h[2],
        h[3],
        h[4],
        h[5],
        h[6],
        h[7],
        IV[0],
        IV[1],
        IV[2],
        IV[3],
        (t % 4294967296) as u32,
        (t / 4294967296) as u32,
        block_len,
        flags,
    ]
}

// The two halves of the state combined, word by word.
#[inline(always)]
pub fn fold(v: [u32; 16]) -> [u32; 8]
    ensures { result ≡ Compression.fold v }
{
    array::from_fn(|i| v[i] ^ v[i + 8])
}

// In place, so that a chain of blocks copies no chaining value.
#[tactic(auto, unfolding(crate::specs::Compression::compress))]
pub fn compress_in_place(h: &mut [u32; 8], m: [u32; 16], t: u64, block_len: u32, flags: u32)
    ensures { h.new ≡ Compression.compress h.old m t block_len flags }
{
    *h = fold(rounds(start(*h, t, block_len, flags), m));
}

// The first eight words of the compression function: chaining value h, message m, counter t, the block's length, flags.
// Kept: the five inputs as BLAKE3's specification lists them. A struct of them would be built for each call and read once.
pub fn compress(h: [u32; 8], m: [u32; 16], t: u64, block_len: u32, flags: u32) -> [u32; 8]
    ensures { result ≡ Compression.compress h m t block_len flags }
{
    let mut c = h;
    compress_in_place(&mut c, m, t, block_len, flags);
    c
}

// The flag of a block that is not its chunk's last, after this many blocks of the chunk.
pub fn start_flag(blocks_compressed: u32) -> u32
    ensures { (result ≡ start_flag blocks_compressed) × (result ≤ 1) }
{
    if blocks_compressed == 0 {
        CHUNK_START
    } else {
        0
    }
}

// The words of the block that `b` starts with.
pub fn block_words(b: &[u8]) -> [u32; 16]
    requires { block_len ≤ length b.now }
    ensures { result ≡ Word.words b.now }
{
    array::from_fn(|i| reading::u32_at(b, 4 * i))
}

// Two chaining values as the block of their parent.
pub fn join(l: [u32; 8], r: [u32; 8]) -> [u32; 16]
    ensures { result ≡ l ++ r }
{
    let mut m = [0u32; 16];
    m[..8].copy_from_slice(&l);
    m[8..].copy_from_slice(&r);
    m
}
