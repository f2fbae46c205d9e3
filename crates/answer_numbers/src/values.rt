// A number, a width or a part of the file.
ghost use Rattle.std.specs.Prelude.{ℕ, ℤ};
ghost use Rattle.format.specs.Parts.{Place};
ghost use Rattle.base.specs.Answers.{as_it_is};
ghost use Rattle.base.specs.Section.{part_in};
ghost use Rattle.base.specs.Small.{byte_width};
ghost use Rattle.answer_numbers.specs.Fields.{part_numbers, signed_numbers, value_numbers};

use crate::{InNumbers, Numbers};
use base::char_width::CharWidth;
use base::section::Part;

impl InNumbers for u64 {
    ghost Kept = { ℕ };

    ghost view = { as_it_is };

    ghost said = { value_numbers };

    fn numbers(self) -> Numbers {
        Numbers::of(&[0, self])
    }
}

impl InNumbers for u32 {
    ghost Kept = { ℕ };

    ghost view = { as_it_is };

    ghost said = { value_numbers };

    fn numbers(self) -> Numbers {
        Numbers::of(&[0, self as u64])
    }
}

// A signed number as the 64 bits of its two's complement.
impl InNumbers for i64 {
    ghost Kept = { ℤ };

    ghost view = { as_it_is };

    ghost said = { signed_numbers };

    fn numbers(self) -> Numbers {
        Numbers::of(&[0, self.cast_unsigned()])
    }
}

impl InNumbers for i32 {
    ghost Kept = { ℤ };

    ghost view = { as_it_is };

    ghost said = { signed_numbers };

    fn numbers(self) -> Numbers {
        Numbers::of(&[0, i64::from(self).cast_unsigned()])
    }
}

impl InNumbers for CharWidth {
    ghost Kept = { ℕ };

    ghost view = { byte_width };

    ghost said = { value_numbers };

    fn numbers(self) -> Numbers {
        Numbers::of(&[0, self.byte_width() as u64])
    }
}

impl InNumbers for Part {
    ghost Kept = { Place };

    ghost view = { part_in };

    ghost said = { part_numbers };

    fn numbers(self) -> Numbers {
        Numbers::of(&[0, self.offset as u64, self.size as u64])
    }
}
