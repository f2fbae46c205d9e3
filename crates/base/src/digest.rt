// A digest of 32 bytes, as eight words, each low byte first.
ghost use Rattle.std.specs.Prelude.{◌≡◌, ◌+◌, ◌≤◌, length};
ghost use Rattle.format.specs.Parts.{hash_size, part, same};
ghost use Rattle.format.specs.Integrity.{no_hash};
ghost use Rattle.reading.specs.Numbers.{word_bytes};
ghost use Rattle.base.specs.Digest.{digest_bytes};

use reading::u32_at;

// The bytes of a digest.
pub const HASH_LEN: usize = 32;

// All zero: no digest.
pub const NO_HASH: Digest = Digest([0; 8]);

#[derive(Clone, Copy, Debug, PartialEq, Eq)]
pub struct Digest(pub [u32; 8]);

// The digest at `at`.
pub fn digest_at(s: &[u8], at: usize) -> Digest
    requires { at + hash_size ≤ length s.now }
    ensures { digest_bytes result ≡ part at hash_size s.now }
{
    Digest([
        u32_at(s, at),
        u32_at(s, at + 4),
        u32_at(s, at + 8),
        u32_at(s, at + 12),
        u32_at(s, at + 16),
        u32_at(s, at + 20),
        u32_at(s, at + 24),
        u32_at(s, at + 28),
    ])
}

impl Digest {
    // The digest of eight words.
    pub fn from_words(w: [u32; 8]) -> Digest
        ensures { digest_bytes result ≡ word_bytes w }
    {
        Digest(w)
    }

    // Whether this is no digest, all zero.
    pub fn is_zero(self) -> bool
        ensures { result ≡ no_hash (digest_bytes self) }
    {
        self.equals(NO_HASH)
    }

    pub fn equals(self, other: Digest) -> bool
        ensures { result ≡ same (digest_bytes self) (digest_bytes other) }
    {
        self == other
    }

    // Its bytes.
    pub fn bytes(self) -> [u8; HASH_LEN]
        ensures { result ≡ digest_bytes self }
    {
        let mut b = [0u8; HASH_LEN];
        for (i, w) in self.0.iter().enumerate() {
            b[4 * i..4 * i + 4].copy_from_slice(&w.to_le_bytes());
        }
        b
    }
}
