// UTF-8, by Unicode's table of well-formed byte sequences (The Unicode Standard, table 3-7).
#![tactic(auto)]

ghost use Rattle.std.specs.Prelude.{cond, Some, None, IfSome, IsTrue, [], ◌∷◌, ◌≡◌, ◌-◌, ◌≤◌, ◌<◌, length, drop, replicate};
ghost use Rattle.utf8.specs.Laws.{Laws};
ghost use Rattle.utf8.specs.Utf8.{◌to◌, starts, sequence_at, if_any, IsRow, valid_up_to, Passed, utf8};

// Whether `s` starts with a byte from `low` to `high`.
// Kept: two bytes and two comparisons, which are as short as a range and its `contains`.
fn has(s: &[u8], low: u8, high: u8) -> bool
    ensures { result ≡ starts (low to high ∷ []) s.now }
{
    s.first().is_some_and(|b| low <= *b && *b <= high)
}

// The length `n` of the sequence that `s` starts with, whose first byte is already checked, if the others follow: the second from `low` to
// `high`, those behind it from 80 to BF.
#[inline(always)]
fn followed(s: &[u8], n: usize, low: u8, high: u8) -> Option<usize>
    requires { 2 ≤ n }
    ensures value { result ≡ cond (starts (low to high ∷ replicate (n - 2) (0x80 to 0xBF)) (drop 1 s.now)) (Some n) None }
    ensures fits { IfSome result (λ k. (k ≡ n) × (k ≤ length s.now)) }
{
    if n <= s.len() && has(&s[1..], low, high) && s[2..n].iter().all(|b| 0x80 <= *b && *b <= 0xBF) {
        Some(n)
    } else {
        None
    }
}

// The length of the well-formed sequence that `s` starts with, if there is one.
fn sequence(s: &[u8]) -> Option<usize>
    ensures { result ≡ if_any (sequence_at s.now) }
{
    match s.first()? {
        0x00..=0x7F => Some(1),
        0xC2..=0xDF => followed(s, 2, 0x80, 0xBF),
        0xE0 => followed(s, 3, 0xA0, 0xBF),
        0xE1..=0xEC => followed(s, 3, 0x80, 0xBF),
        0xED => followed(s, 3, 0x80, 0x9F),
        0xEE..=0xEF => followed(s, 3, 0x80, 0xBF),
        0xF0 => followed(s, 4, 0x90, 0xBF),
        0xF1..=0xF3 => followed(s, 4, 0x80, 0xBF),
        0xF4 => followed(s, 4, 0x80, 0x8F),
        _ => None,
    }
}

// Whether `s` starts with eight bytes of ASCII. No early exit, so that the compiler can test all eight at once.
// Kept: a count over an index. With `is_ascii` or a fold over the eight bytes, mixed letters take 1.2 to 1.4 times as long.
fn eight(s: &[u8]) -> bool
    ensures value { result ≡ starts (replicate 8 (0x00 to 0x7F)) s.now }
    ensures long { IsTrue result → 8 ≤ length s.now }
{
    if s.len() < 8 {
        return false;
    }
    let mut n = 0usize;
    for k in 0..8usize {
        if s[k] <= 0x7F {
            n += 1;
        }
    }
    n == 8
}

// What stands behind the ASCII that `s` starts with.
fn past_ascii(s: &[u8]) -> &[u8]
    ensures { Passed s.now result.now }
{
    let mut rest = s;
    while eight(rest) {
        rest = &rest[8..];
    }
    while let [0x00..=0x7F, more @ ..] = rest {
        rest = more;
    }
    rest
}

// What stands behind the sequences that `s` starts with, of `n` bytes each, the first from `low` to `high` and the others from 80 to BF.
#[inline(always)]
fn past_alike(s: &[u8], n: usize, low: u8, high: u8) -> &[u8]
    requires length { 2 ≤ n }
    requires row { IsRow (low to high ∷ replicate (n - 1) (0x80 to 0xBF)) }
    ensures { Passed s.now result.now }
{
    let mut rest = s;
    while has(rest, low, high)
        && let Some(k) = followed(rest, n, 0x80, 0xBF)
    {
        rest = &rest[k..];
    }
    rest
}

// The length of the longest start of `s` that consists of whole well-formed sequences: the Rust's `Utf8Error::valid_up_to`. `sequence`
// decides; runs of sequences of one kind are passed faster.
// Kept: a loop of its own in place of `str::from_utf8`, which takes twice as long on letters of two or three bytes.
#[tactic(auto, using(crate::proofs::Passing::fits, crate::proofs::Passing::none_left))]
pub fn valid_up_to(s: &[u8]) -> usize
    ensures { result ≡ valid_up_to s.now }
{
    let mut rest = s;
    loop {
        if has(rest, 0x00, 0x7F) {
            rest = past_ascii(&rest[1..]);
        } else if let Some(n) = sequence(rest) {
            let more = &rest[n..];
            rest = match n {
                2 => past_alike(more, 2, 0xC2, 0xDF),
                _ => past_alike(more, 3, 0xE1, 0xEC),
            };
        } else {
            return s.len() - rest.len();
        }
    }
}

// Whether `s` is well-formed UTF-8.
pub fn is_utf8(s: &[u8]) -> bool
    ensures { result ≡ utf8 s.now }
{
    valid_up_to(s) == s.len()
}

// The claims of `specs/Laws.antt` hold. Empty body: the contract makes the checker prove them.
pub fn laws_hold()
    ensures { Laws }
{}
