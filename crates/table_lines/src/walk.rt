// Walks that write the lines of a table's entries.
ghost use Rattle.base.specs.Answers.{as_it_is, got_from};
ghost use Rattle.base.specs.Section.{place_in};
ghost use Rattle.lent.specs.Output.{PutsRestFree};
ghost use Rattle.table_lines.specs.Tables.{text_of};
ghost use Rattle.table_lines.specs.Walks.{entries_text};

use crate::listed::Listed;
use base::error::ContainerError;
use base::section::Section;
use lent::put_text;
use reading::Table;

// The lines of a table's entries, from its first on.
pub fn put_entries<E: Listed>(
    out: &mut [u8],
    at: usize,
    file: &[u8],
    section: Section,
    first: Table,
) -> Option<usize>
    ensures { PutsRestFree out.old at (entries_text (E.walk file.now (place_in section)) (E.line file.now (place_in section)) first) out.new result }
{
    if out.len() < at {
        return None;
    }
    let mut rest = first;
    let mut next = at;
    for index in 0..first.count {
        match E::next(file, section, rest) {
            Ok(Some((entry, behind))) => {
                next = entry.put(out, next, file, section, index)?;
                rest = behind;
            }
            // Kept: two arms, since with `Ok(None) | Err(_)` the proof did not close.
            Ok(None) => break,
            Err(_) => break,
        }
    }
    Some(next)
}

// The same, by where the walk starts: no lines if that is refused.
pub fn put_from<E: Listed>(
    out: &mut [u8],
    at: usize,
    file: &[u8],
    section: Section,
    start: Result<Table, ContainerError>,
) -> Option<usize>
    ensures { PutsRestFree out.old at (text_of (got_from as_it_is start) (entries_text (E.walk file.now (place_in section)) (E.line file.now (place_in section)))) out.new result }
{
    match start {
        Ok(first) => put_entries::<E>(out, at, file, section, first),
        Err(_) => put_text(out, at, b""),
    }
}
