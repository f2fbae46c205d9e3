// Four chunks hashed side by side. The body of the loop over the lanes is the whole compression, so that the compiler makes vector
// instructions of it.
#![tactic(auto)]

ghost use Rattle.std.specs.Prelude.{◌≡◌, ◌+◌, ◌*◌, ◌≤◌, length};
ghost use Rattle.compression.specs.Sizes.{block_len, chunk_len};
ghost use Rattle.wide.specs.Lanes as Lanes;
ghost use Rattle.compression.specs.Compression as Compression;

use compression::{
    BLOCK_LEN, CHUNK_END, CHUNK_LEN, LAST_BLOCK, LAST_BLOCK_START, block_words, fold, iv, permute,
    round, start, start_flag,
};

// The number of a chunk, which is also how many chunks come before it. Its width is `count_bits` of specs/Lanes.antt; the compression takes 64 bits.
pub type ChunkCounter = u64;

// The number of the chunk that comes `i` chunks after chunk `t`.
pub fn counter_after(t: ChunkCounter, i: ChunkCounter) -> ChunkCounter
    ensures { result ≡ Lanes.counter_after t i }
{
    t.wrapping_add(i)
}

// The seven rounds, as in `compression`.
// Kept: a second copy of the two functions that call the rounds, since shared ones, inlined by force, take 1.9 times as long over four chunks.
fn rounds(v: [u32; 16], m: [u32; 16]) -> [u32; 16]
    ensures { result ≡ Compression.rounds 7 v m }
{
    let v1 = round(v, m);
    let m1 = permute(m);
    let v2 = round(v1, m1);
    let m2 = permute(m1);
    let v3 = round(v2, m2);
    let m3 = permute(m2);
    let v4 = round(v3, m3);
    let m4 = permute(m3);
    let v5 = round(v4, m4);
    let m5 = permute(m4);
    let v6 = round(v5, m5);
    let m6 = permute(m5);
    round(v6, m6)
}

// The compression of a whole block.
#[tactic(auto, unfolding(compression::specs::Compression::compress))]
fn compress(h: [u32; 8], m: [u32; 16], t: u64, flags: u32) -> [u32; 8]
    ensures { result ≡ Compression.compress h m t block_len flags }
{
    fold(rounds(start(h, t, BLOCK_LEN as u32, flags), m))
}

// The block that `s` starts with and those one, two and three chunks after it, each compressed in its lane.
fn compress4(h: [[u32; 8]; 4], s: &[u8], t: ChunkCounter, flags: u32) -> [[u32; 8]; 4]
    requires { 3 * chunk_len + block_len ≤ length s.now }
    ensures { Lanes.Compressed h result s.now t flags }
{
    let mut out = h;
    for (i, lane) in out.iter_mut().enumerate() {
        let m = block_words(&s[CHUNK_LEN * i..]);
        *lane = compress(h[i], m, counter_after(t, i as ChunkCounter), flags);
    }
    out
}

// The chaining values of the four whole chunks that `s` starts with. The first has the number `t` and goes on from the chaining value `cv`.
pub fn chunks4(cv: [u32; 8], s: &[u8], t: ChunkCounter) -> [[u32; 8]; 4]
    requires { 4 * chunk_len ≤ length s.now }
    ensures { Lanes.Chunks cv result s.now t }
{
    let v = iv();
    let mut h = [cv, v, v, v];
    // Kept: a block's number is its place and its flag; the blocks of the four chunks do not follow one another.
    for b in 0..LAST_BLOCK {
        let next = compress4(h, &s[BLOCK_LEN * b..], t, start_flag(b as u32));
        h = next;
    }
    compress4(h, &s[LAST_BLOCK_START..], t, CHUNK_END)
}
