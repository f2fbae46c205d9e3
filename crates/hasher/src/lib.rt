// BLAKE3's hash state: fed in any division into parts, and finished. No state is refused; `specs/State.antt` says what becomes of each.
#![tactic(auto)]

ghost use Rattle.std.specs.Prelude.{◌≡◌, List, ℕ, ◌+◌, ◌*◌, ◌/◌, ◌≤◌, min, map, length};
ghost use Rattle.compression.specs.Sizes.{block_len, chunk_len, last_block};
ghost use Rattle.compression.specs.Word.{words};
ghost use Rattle.compression.specs.Chain.{chained};
ghost use Rattle.wide.specs.Lanes.{chunk_value};
ghost use Rattle.hasher.specs.Hash.{chaining_value, root_words, parent_output, hash_words};
ghost use Rattle.hasher.specs.Stack.{words_of, values_of, joined, under, pushed};
ghost use Rattle.hasher.specs.State.{start, output_with, chunk_done, advanced, fed_freely, capacity, fill, fed, finished};
ghost use Rattle.hasher.specs.Whole.{chunks_done, at_once};
ghost use Rattle.hasher.specs.Laws.{Laws};

use compression::{
    BLOCK_LEN, CHUNK_END, CHUNK_LEN, LAST_BLOCK, LAST_BLOCK_START, PARENT, ROOT, block_words,
    compress, compress_in_place, iv, join, start_flag,
};
use lent::{copy, copy_to};
use wide::{ChunkCounter, chunks4, counter_after};

const FOUR_CHUNKS: usize = 4 * CHUNK_LEN;

// How many chaining values can wait.
pub const LEVELS: usize = 8;

// The most chunks that a state takes in.
const CHUNKS: ChunkCounter = 1 << LEVELS;

// The most bytes that a state takes in.
pub const CAPACITY: usize = CHUNK_LEN << LEVELS;

// A node before its last compression: all inputs but the flag ROOT.
// Kept: `block_len` is an input of the compression. A slice in place of it and `block_words` would be wrong: all sixteen words count.
#[derive(Clone, Copy)]
pub struct Output {
    pub input_chaining_value: [u32; 8],
    pub block_words: [u32; 16],
    pub counter: u64,
    pub block_len: u32,
    // A byte, as in BLAKE3's own crate, so that ROOT can be added to any.
    pub flags: u8,
}

// The chaining value of a finished subtree.
#[derive(Clone, Copy)]
pub struct ChainingValue {
    pub words: [u32; 8],
}

// The values that wait to be joined, oldest first: the first `len` of `values`.
// Kept: places with a length beside them, as in `Hasher` the block: document 01 names this form, and there is no heap. Callers may make up a
// state, so `len` is cut to the places where it is read, and no ghost field bounds it.
#[derive(Clone, Copy)]
pub struct CvStack {
    pub values: [ChainingValue; LEVELS],
    pub len: usize,
}

#[derive(Clone, Copy)]
pub struct Hasher {
    // The chaining value after the blocks of the current chunk that were compressed.
    pub chaining_value: [u32; 8],
    // The block that waits, and how many bytes it has.
    pub block: [u8; BLOCK_LEN],
    pub block_len: u32,
    // How many blocks of the current chunk were compressed.
    pub blocks_compressed: u32,
    pub cv_stack: CvStack,
    // How many chunks are finished, which is the number of the current one.
    pub chunk_counter: ChunkCounter,
}

impl Output {
    fn chaining_value(self) -> [u32; 8]
        ensures { result ≡ chaining_value self }
    {
        compress(
            self.input_chaining_value,
            self.block_words,
            self.counter,
            self.block_len,
            u32::from(self.flags),
        )
    }

    fn root_words(self) -> [u32; 8]
        ensures { result ≡ root_words self }
    {
        compress(
            self.input_chaining_value,
            self.block_words,
            self.counter,
            self.block_len,
            u32::from(self.flags) + ROOT,
        )
    }
}

// The output of the parent of two subtrees.
fn parent_output(left: [u32; 8], right: [u32; 8]) -> Output
    ensures { result ≡ parent_output left right }
{
    Output {
        input_chaining_value: iv(),
        block_words: join(left, right),
        counter: 0,
        block_len: BLOCK_LEN as u32,
        flags: PARENT as u8,
    }
}

// The chaining value of the parent of a subtree and the one that waits on its left.
fn joined_with(right: [u32; 8], left: &ChainingValue) -> [u32; 8]
    ensures { result ≡ chaining_value (parent_output left.now.words right) }
{
    parent_output(left.words, right).chaining_value()
}

// `cv` joined with these values, the newest of them first.
fn joined(values: &[ChainingValue], cv: [u32; 8]) -> [u32; 8]
    ensures { result ≡ joined cv (map words_of values.now) }
{
    values.iter().rev().fold(cv, joined_with)
}

// The root above these values and the tree's last chunk.
fn under(values: &[ChainingValue], last: Output) -> Output
    ensures { result ≡ under last (map words_of values.now) }
{
    values.iter().rev().fold(
        last,
        |right, left| parent_output(left.words, right.chaining_value()),
    )
}

impl CvStack {
    // Joins `cv` with the newest `joins` values and pushes the result.
    fn push(self, joins: u32, cv: [u32; 8]) -> CvStack
        ensures { result ≡ pushed self joins cv }
    {
        let mut values = self.values;
        let len = self.len.min(LEVELS);
        let place = len.saturating_sub(joins as usize);
        let words = joined(&values[place..len], cv);
        if place < LEVELS {
            values[place] = ChainingValue { words };
        }
        CvStack {
            values,
            len: (place + 1).min(LEVELS),
        }
    }

    // The root of the tree whose last chunk is `last`.
    fn root(self, last: Output) -> Output
        ensures { result ≡ under last (values_of self) }
    {
        under(&self.values[..self.len.min(LEVELS)], last)
    }
}

// The chaining value after all whole blocks of `s`, the first of them block number `first` of chunk `t`.
fn chain(cv: [u32; 8], s: &[u8], t: u64, first: u32) -> [u32; 8]
    requires { length s.now / block_len + first ≤ last_block }
    ensures { result ≡ chained (length s.now / block_len) cv t first s.now }
{
    let mut c = cv;
    let (blocks, _) = s.as_chunks::<BLOCK_LEN>();
    for (i, block) in blocks.iter().enumerate() {
        let flag = start_flag(first + i as u32);
        compress_in_place(&mut c, block_words(block), t, BLOCK_LEN as u32, flag);
    }
    c
}

// The chaining value of the whole chunk number `t`, which `s` starts with.
fn chunk_value(cv: [u32; 8], s: &[u8], t: u64) -> [u32; 8]
    requires { chunk_len ≤ length s.now }
    ensures { result ≡ chunk_value cv t s.now }
{
    let (blocks, last) = s.split_at(LAST_BLOCK_START);
    let c = chain(cv, blocks, t, 0);
    compress(c, block_words(last), t, BLOCK_LEN as u32, CHUNK_END)
}

// How many whole chunks are taken in at once if `left` bytes are left: four if more input follows them, or one.
fn at_once(left: usize) -> usize
    ensures { result ≡ at_once left }
{
    if FOUR_CHUNKS < left { 4 } else { 1 }
}

impl Hasher {
    pub fn new() -> Hasher
        ensures { result ≡ start }
    {
        Hasher {
            chaining_value: iv(),
            block: [0; BLOCK_LEN],
            block_len: 0,
            blocks_compressed: 0,
            cv_stack: CvStack {
                values: [ChainingValue { words: [0; 8] }; LEVELS],
                len: 0,
            },
            chunk_counter: 0,
        }
    }

    // The number of the current chunk, as wide as the compression takes it.
    fn counter(self) -> u64
        ensures { result ≡ self.chunk_counter }
    {
        self.chunk_counter
    }

    // The output of the current chunk, with this last block, of `block_len` bytes.
    fn output(self, block_words: [u32; 16], block_len: u32) -> Output
        ensures { result ≡ output_with self block_words block_len }
    {
        let input_chaining_value = self.chaining_value;
        Output {
            input_chaining_value,
            block_words,
            counter: self.counter(),
            block_len,
            flags: (start_flag(self.blocks_compressed) + CHUNK_END) as u8,
        }
    }

    // The current chunk is finished and has the chaining value `cv`.
    fn chunk_done(self, cv: [u32; 8]) -> Hasher
        ensures { result ≡ chunk_done self cv }
    {
        let before = self.chunk_counter;
        let chunks = counter_after(before, 1);
        let joins = chunks.trailing_zeros();
        Hasher {
            chaining_value: iv(),
            block: [0; BLOCK_LEN],
            block_len: 0,
            blocks_compressed: 0,
            cv_stack: self.cv_stack.push(joins, cv),
            chunk_counter: chunks,
        }
    }

    // The block belongs to the current chunk, and more input follows it.
    fn advance(self, block_words: [u32; 16]) -> Hasher
        ensures { result ≡ advanced self block_words }
    {
        if self.blocks_compressed < LAST_BLOCK as u32 {
            let cv = self.chaining_value;
            let flag = start_flag(self.blocks_compressed);
            return Hasher {
                chaining_value: compress(cv, block_words, self.counter(), BLOCK_LEN as u32, flag),
                block: [0; BLOCK_LEN],
                block_len: 0,
                blocks_compressed: self.blocks_compressed + 1,
                ..self
            };
        }
        let last = self.output(block_words, BLOCK_LEN as u32);
        self.chunk_done(last.chaining_value())
    }

    // Takes in the four whole chunks that `s` starts with, hashed side by side.
    fn take_chunks(self, s: &[u8]) -> Hasher
        requires { 4 * chunk_len ≤ length s.now }
        ensures { result ≡ chunks_done 4 self s.now }
    {
        let mut h = self;
        for cv in chunks4(self.chaining_value, s, self.chunk_counter) {
            let next = h.chunk_done(cv);
            h = next;
        }
        h
    }

    // Takes in the whole chunk that `s` starts with.
    // Kept: beside `take_chunks`. Four chunks are hashed in lanes, which is faster, and one function for both would only ask which.
    fn take_chunk(self, s: &[u8]) -> Hasher
        requires { chunk_len ≤ length s.now }
        ensures { result ≡ chunks_done 1 self s.now }
    {
        self.chunk_done(chunk_value(self.chaining_value, s, self.counter()))
    }

    // Takes in as many whole chunks of `s` as `at_once` says.
    fn take_whole(self, s: &[u8]) -> Hasher
        requires { chunk_len ≤ length s.now }
        ensures { result ≡ chunks_done (at_once (length s.now)) self s.now }
    {
        if FOUR_CHUNKS < s.len() {
            return self.take_chunks(s);
        }
        self.take_chunk(s)
    }

    // The state fed with all bytes of `s`, however many it has taken in. Each turn takes in the full block, whole chunks, whole blocks, or as
    // many bytes as the block has room for. The last two alter the state in place, so that the values that wait are not copied.
    fn feed(self, s: &[u8]) -> Hasher
        ensures { result ≡ fed_freely self s.now }
    {
        let mut h = self;
        let mut rest = s;
        while !rest.is_empty() {
            let len = h.block_len as usize;
            let blocks = h.blocks_compressed as usize;
            let mut block = h.block;
            if BLOCK_LEN <= len {
                let next = h.advance(block_words(&block));
                h = next;
            } else if len == 0 && blocks == 0 && CHUNK_LEN < rest.len() {
                let next = h.take_whole(rest);
                h = next;
                rest = &rest[CHUNK_LEN * at_once(rest.len())..];
            } else if len == 0 && blocks < LAST_BLOCK && BLOCK_LEN < rest.len() {
                let n = (LAST_BLOCK - blocks).min((rest.len() - 1) / BLOCK_LEN);
                let (whole, more) = rest.split_at(BLOCK_LEN * n);
                let next = chain(h.chaining_value, whole, h.counter(), h.blocks_compressed);
                h.chaining_value = next;
                h.block = [0; BLOCK_LEN];
                h.blocks_compressed += n as u32;
                rest = more;
            } else {
                let n = (BLOCK_LEN - len).min(rest.len());
                let (part, more) = rest.split_at(n);
                copy(&mut block, len, part);
                h.block = block;
                h.block_len = (len + n) as u32;
                rest = more;
            }
        }
        h
    }

    // How many bytes the state has taken in. A state that feeding cannot produce may hold a larger number, which counts as `CAPACITY`.
    pub fn taken(self) -> usize
        ensures { result ≡ min (fill self) capacity }
    {
        if CHUNKS <= self.chunk_counter {
            return CAPACITY;
        }
        let chunks = self.chunk_counter as usize;
        let blocks = LAST_BLOCK.min(self.blocks_compressed as usize);
        let len = BLOCK_LEN.min(self.block_len as usize);
        CHUNK_LEN * chunks + BLOCK_LEN * blocks + len
    }

    // The state fed with as many bytes of `s` as it has room for. In all a state takes in at most `CAPACITY` bytes; the rest is dropped.
    pub fn update(self, s: &[u8]) -> Hasher
        ensures { result ≡ fed self s.now }
    {
        let n = s.len().min(CAPACITY - self.taken());
        self.feed(&s[..n])
    }

    // The root's eight words: BLAKE3's digest of all that was fed, if that was at most `CAPACITY` bytes. `blake3::finish` refuses a state that
    // may have been fed more.
    pub fn finish(self) -> [u32; 8]
        ensures { result ≡ finished self }
    {
        let last = self.output(block_words(&self.block), self.block_len);
        self.cv_stack.root(last).root_words()
    }
}

// The words of a chunk's last block, which may be short.
fn last_words(s: &[u8]) -> [u32; 16]
    requires { length s.now ≤ block_len }
    ensures { result ≡ words s.now }
{
    if s.len() == BLOCK_LEN {
        return block_words(s);
    }
    let mut block = [0; BLOCK_LEN];
    copy_to(&mut block, s);
    block_words(&block)
}

// The digest of at most one chunk, as eight words. It needs no state.
pub fn one_chunk(s: &[u8]) -> [u32; 8]
    requires { length s.now ≤ chunk_len }
    ensures { result ≡ hash_words s.now }
{
    let n = s.len().saturating_sub(1) / BLOCK_LEN;
    let (blocks, last) = s.split_at(BLOCK_LEN * n);
    let output = Output {
        input_chaining_value: chain(iv(), blocks, 0, 0),
        block_words: last_words(last),
        counter: 0,
        block_len: last.len() as u32,
        flags: (start_flag(n as u32) + CHUNK_END) as u8,
    };
    output.root_words()
}

// The claims of `specs/Laws.antt` hold. Empty body: the contract makes the checker prove them.
pub fn laws_hold()
    ensures { Laws }
{}
