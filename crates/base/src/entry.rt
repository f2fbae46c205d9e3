// Entries of a section's tables.
ghost use Rattle.std.specs.Prelude.{ℕ, List, ◌≡◌, ◌<◌, length};
ghost use Rattle.reading.specs.Fault.{Fault};
ghost use Rattle.reading.specs.Reader.{Reader, many};
ghost use Rattle.reading.specs.Places.{step_at, way_at, step_of};
ghost use Rattle.reading.proofs.Left.{Stays};
ghost use Rattle.reading.proofs.Width.{Width, Fixed};
ghost use Rattle.format.specs.Faults.{no_entry};
ghost use Rattle.format.specs.Parts.{Place};
ghost use Rattle.base.specs.Answers.{step_by, found_by, next_by, way_by, way_if_there};
ghost use Rattle.base.specs.Cut.{place_of};
ghost use Rattle.base.specs.Picked.{picked};
ghost use Rattle.base.specs.Indexing.{Indexes, ReadsByWidth};

use crate::cut::Cut;
use reading::Table;

// An entry of a table: how it is read at a place of its section.
pub trait Entry: Copy {
    // Why it does not read.
    type Error;

    // What document 01 keeps of it, and what of this the code's value is.
    ghost Kept: { Type 0 };

    ghost kept: { Self → Kept };

    // Which of document 01's refusals an error is, in a section of these bytes.
    ghost told: { List ℕ → Self.Error → Fault };

    // Document 01's reader of it, in a section at this place of the file.
    ghost reader: { Place → Reader Kept };

    // The entry at a place, and where it ends.
    fn read(cut: Cut, at: usize) -> Result<(Self, usize), Self::Error>
        ensures { step_by (told cut.entry.bytes.now) kept result ≡ step_at (reader (place_of cut.entry)) cut.entry.bytes.now at };

    // What the reader leaves is what stands behind the entry.
    ghost stays: { (p : Place) (s : List ℕ) → Stays s (reader p) };
}

// An entry of a table whose entries all have one width.
pub trait OneWidth: Entry {
    // How many bytes it has.
    const WIDTH: usize;

    ghost WIDTH: { ℕ };

    ghost width: { (p : Place) → (0 < WIDTH) × Width WIDTH (Self.reader p) };
}

// An entry of one width that no content refuses: it reads if its bytes are there.
pub trait Plain: OneWidth {
    ghost fixed: { (p : Place) → Fixed Self.WIDTH (Self.reader p) };
}

// Passes over `n` entries from `at` on.
pub fn skip<E: Entry>(cut: Cut, at: usize, n: usize) -> Result<usize, E::Error>
    ensures { way_by (E.told cut.entry.bytes.now) result ≡ way_at (many n (E.reader (place_of cut.entry))) cut.entry.bytes.now at }
{
    let mut p = at.min(cut.bytes.len());
    for _ in 0..n {
        (_, p) = E::read(cut, p)?;
    }
    Ok(p)
}

// The entry of index `k` in a table: those before it are passed over. None where the table has no such entry.
pub fn find<E: Entry>(cut: Cut, t: Table, k: usize) -> Result<Option<E>, E::Error>
    ensures { found_by (E.told cut.entry.bytes.now) E.kept no_entry result ≡ picked (E.reader (place_of cut.entry)) cut.entry.bytes.now t.at t.count k }
{
    if t.count <= k {
        return Ok(None);
    }
    let at = skip::<E>(cut, t.at, k)?;
    let (entry, _) = E::read(cut, at)?;
    Ok(Some(entry))
}

// One step of a walk over a table: the next entry, and the table of those behind it.
pub fn step<E: Entry>(cut: Cut, t: Table) -> Result<Option<(E, Table)>, E::Error>
    ensures { next_by (E.told cut.entry.bytes.now) E.kept result ≡ step_of (E.reader (place_of cut.entry)) cut.entry.bytes.now t }
{
    if t.count == 0 {
        return Ok(None);
    }
    let (entry, behind) = E::read(cut, t.at)?;
    Ok(Some((
        entry,
        Table {
            at: behind,
            count: t.count - 1,
        },
    )))
}

// Passes over `n` plain entries from `at` on, without a look at them; none where they are not all there.
pub fn pass<E: Plain>(cut: Cut, at: usize, n: usize) -> Option<usize>
    ensures { way_if_there result ≡ way_at (many n (E.reader (place_of cut.entry))) cut.entry.bytes.now at }
{
    let at = at.min(cut.bytes.len());
    let size = E::WIDTH.checked_mul(n)?;
    if cut.left(at) < size {
        return None;
    }
    Some(at + size)
}

// The entry of index `index` in a table whose entries have one width: none before it is read.
pub fn find_by_width<E: OneWidth>(cut: Cut, t: Table, index: u16) -> Result<Option<E>, E::Error>
    ensures indexes { Indexes (E.told cut.entry.bytes.now) E.kept (E.reader (place_of cut.entry)) cut.entry.bytes.now t index result }
    ensures anywhere { ReadsByWidth (E.told cut.entry.bytes.now) E.kept (E.reader (place_of cut.entry)) E.WIDTH cut.entry.bytes.now t index result }
{
    let index = index as usize;
    if t.count <= index {
        return Ok(None);
    }
    let at = t.at.saturating_add(E::WIDTH.saturating_mul(index));
    let (entry, _) = E::read(cut, at)?;
    Ok(Some(entry))
}
