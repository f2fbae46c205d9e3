// The numbers that constants hold.
ghost use Rattle.std.specs.Prelude.{ℕ, ℤ, ◌≡◌, take};
ghost use Rattle.reading.specs.Numbers.{le, bytes_le};
ghost use Rattle.format.specs.Constants.{signed};
ghost use Rattle.base.specs.Answers.{as_it_is};

// A type of numbers. A constant holds one in the first of its eight bytes, low byte first.
pub trait Number: Copy {
    // What document 01 says that it is.
    ghost Value: { Type 0 };

    ghost value: { Self → Value };

    // How many bytes it has, and what it is by the number that they are.
    ghost width: { ℕ };

    ghost sense: { ℕ → Value };

    fn from_kept(kept: u64) -> Self
        ensures { value result ≡ sense (le (take width (bytes_le 8 kept))) };
}

impl Number for u32 {
    ghost Value = { ℕ };

    ghost value = { as_it_is };

    ghost width = { 4 };

    ghost sense = { as_it_is };

    #[tactic(auto, using(crate::proofs::Numbers::le_four))]
    fn from_kept(kept: u64) -> u32 {
        (kept % 4294967296) as u32
    }
}

impl Number for u64 {
    ghost Value = { ℕ };

    ghost value = { as_it_is };

    ghost width = { 8 };

    ghost sense = { as_it_is };

    #[tactic(auto, using(crate::proofs::Numbers::le_eight))]
    fn from_kept(kept: u64) -> u64 {
        kept
    }
}

// Two's complement.

impl Number for i32 {
    ghost Value = { ℤ };

    ghost value = { as_it_is };

    ghost width = { 4 };

    ghost sense = { signed 2147483648 };

    fn from_kept(kept: u64) -> i32 {
        u32::from_kept(kept).cast_signed()
    }
}

impl Number for i64 {
    ghost Value = { ℤ };

    ghost value = { as_it_is };

    ghost width = { 8 };

    ghost sense = { signed 9223372036854775808 };

    fn from_kept(kept: u64) -> i64 {
        u64::from_kept(kept).cast_signed()
    }
}
