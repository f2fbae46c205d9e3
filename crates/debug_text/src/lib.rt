// Texts, names and paths of the debug section; each text is answered as a part of the file.
// A name has a 1-byte length, a path a 2-byte length, and both must be UTF-8.
#![tactic(auto)]

ghost use Rattle.std.specs.Prelude.{◌≡◌, ◌≤◌, length};
ghost use Rattle.reading.specs.Places.{step_at};
ghost use Rattle.format.specs.Parts.{Place, by_place};
ghost use Rattle.format.specs.Debug.{text, name, path};
ghost use Rattle.format.proofs.Leaves.{stays-name};
ghost use Rattle.base.specs.Cut.{place_of};
ghost use Rattle.debug_text.specs.Answers.{debug_fault_of, text_step, name_in};
ghost use Rattle.debug_text.specs.Laws.{Laws};

use base::cut::Cut;
use base::entry::Entry;
use base::section::Part;
use reading::{u8_at, u16_at};
use utf8::valid_up_to;

// The size of a count: of rows, of entries, of values.
pub const COUNT_SIZE: usize = 2;

// The size of the length in front of a name, and of that in front of a path.
const NAME_LENGTH_SIZE: usize = 1;

const PATH_LENGTH_SIZE: usize = 2;

// Why the section is unreadable.
#[derive(Clone, Copy)]
pub enum DebugFault {
    // It ends before an announced item.
    Short,
    // A text is not UTF-8: the place in the section of its first bad byte.
    BadText(usize),
}

// The text of `n` bytes at `at`, and the place after it.
#[tactic(auto, using(crate::proofs::Texts::text_short, crate::proofs::Texts::text_good, crate::proofs::Texts::text_bad))]
pub fn read_text(cut: Cut, at: usize, n: usize) -> Result<(Part, usize), DebugFault>
    requires { at ≤ length cut.bytes.now }
    ensures { text_step cut.entry.bytes.now result ≡ step_at (text (by_place (place_of cut.entry)) n) cut.entry.bytes.now at }
{
    if cut.left(at) < n {
        return Err(DebugFault::Short);
    }
    let end = at + n;
    let good = valid_up_to(&cut.bytes[at..end]);
    if good < n {
        return Err(DebugFault::BadText(at + good));
    }
    let text = Part {
        offset: cut.offset + at,
        size: n,
    };
    Ok((text, end))
}

// A name; the part of the file that its text is.
#[derive(Clone, Copy)]
pub struct Name(pub Part);

impl Entry for Name {
    type Error = DebugFault;

    ghost Kept = { Place };

    ghost kept = { name_in };

    ghost told = { debug_fault_of };

    ghost reader = { λ p. name (by_place p) };

    ghost stays = { λ p s. stays-name (by_place p) s };

    #[tactic(auto, using(crate::proofs::Texts::name_short, crate::proofs::Texts::name_text))]
    fn read(cut: Cut, at: usize) -> Result<(Self, usize), DebugFault> {
        if cut.left(at) < NAME_LENGTH_SIZE {
            return Err(DebugFault::Short);
        }
        let n = u8_at(cut.bytes, at) as usize;
        let (text, end) = read_text(cut, at + NAME_LENGTH_SIZE, n)?;
        Ok((Name(text), end))
    }
}

// The path at `at`, and the place after it.
#[tactic(auto, using(crate::proofs::Texts::path_short, crate::proofs::Texts::path_text))]
pub fn read_path(cut: Cut, at: usize) -> Result<(Part, usize), DebugFault>
    ensures { text_step cut.entry.bytes.now result ≡ step_at (path (by_place (place_of cut.entry))) cut.entry.bytes.now at }
{
    if cut.left(at) < PATH_LENGTH_SIZE {
        return Err(DebugFault::Short);
    }
    let n = u16_at(cut.bytes, at) as usize;
    read_text(cut, at + PATH_LENGTH_SIZE, n)
}

// The claims of `specs/Laws.antt` hold. Empty body: the contract makes the checker prove them.
pub fn laws_hold()
    ensures { Laws }
{}
