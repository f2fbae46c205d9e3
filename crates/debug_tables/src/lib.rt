// The rows of the debug section, and where its tables in force stand in it. Names and paths are passed over: their place in the file does not matter.
#![tactic(auto)]

pub mod in_force;

ghost use Rattle.std.specs.Prelude.{◌≡◌, ◌≤◌, length, MatchOption};
ghost use Rattle.reading.specs.Fault.{short_input};
ghost use Rattle.reading.specs.Reader.{fault};
ghost use Rattle.reading.specs.Answer.{found, item_of};
ghost use Rattle.reading.specs.Places.{step_at, way_at};
ghost use Rattle.format.specs.Debug.{kind_of, rows_of};
ghost use Rattle.requests.specs.BadPlace.{bad_place};
ghost use Rattle.base.specs.Answers.{as_it_is, got_by, step_by, way_by};
ghost use Rattle.debug_text.specs.Answers.{debug_fault_of};
ghost use Rattle.debug_tables.specs.Rows.{RowsRead};
ghost use Rattle.debug_tables.specs.SixTags.{all_tags, of_kind, with_kind};
ghost use Rattle.debug_tables.specs.Starts.{is_listed, entries_of, payload_start, debug_starts};
ghost use Rattle.debug_tables.specs.Counts.{counts_read};
ghost use Rattle.debug_tables.specs.Answers.{kind_in, debug_counts_in, bad_place_in};
ghost use Rattle.debug_tables.specs.Laws.{TwoByteCounts, Laws};

use base::cut::Cut;
use base::entry::{pass, skip};
use debug_entries::enumerations::EnumerationEntry;
use debug_entries::function_names::FunctionNameEntry;
use debug_entries::source_files::SourceFileEntry;
use debug_entries::string_layouts::StringLayoutEntry;
use debug_entries::variables::VariableEntry;
use debug_text::{COUNT_SIZE, DebugFault};
use line_map::LineMapEntry;
use reading::{Table, u16_at, u32_at};

// The size of a row: tag 2, reserved 2, size 4.
const DIR_ENTRY_SIZE: usize = 8;

// Where a row has its size.
const ROW_SIZE_AT: usize = 4;

// What the payload of a row holds, by the row's tag.
#[derive(Clone, Copy)]
pub enum TableKind {
    Lines,
    Variables,
    Functions,
    Strings,
    Files,
    Enumerations,
    Unknown,
}

impl From<u16> for TableKind {
    ghost from_gives = { λ tag kind. kind_in kind ≡ kind_of tag };

    #[tactic(auto, unfolding(format::specs::Debug::kind_of))]
    fn from(tag: u16) -> TableKind {
        match tag {
            1 => TableKind::Lines,
            2 => TableKind::Variables,
            3 => TableKind::Functions,
            4 => TableKind::Strings,
            6 => TableKind::Files,
            9 => TableKind::Enumerations,
            _ => TableKind::Unknown,
        }
    }
}

// Something for each of the six tags that are listed.
#[derive(Clone, Copy)]
pub struct SixTags<T> {
    pub lines: T,
    pub variables: T,
    pub functions: T,
    pub strings: T,
    pub files: T,
    pub enumerations: T,
}

// Where the tables in force stand in the section; a table without a row is empty and at 0.
pub type DebugTables = SixTags<Table>;

// How many entries the tables in force have.
pub type DebugCounts = SixTags<u16>;

impl<T: Copy> SixTags<T> {
    // The same for each tag.
    fn all(x: T) -> SixTags<T>
        ensures { result ≡ all_tags x }
    {
        SixTags {
            lines: x,
            variables: x,
            functions: x,
            strings: x,
            files: x,
            enumerations: x,
        }
    }

    // That of a kind; none for a tag that is not listed.
    fn get(self, kind: TableKind) -> Option<T>
        ensures { result ≡ of_kind (kind_in kind) self }
    {
        match kind {
            TableKind::Lines => Some(self.lines),
            TableKind::Variables => Some(self.variables),
            TableKind::Functions => Some(self.functions),
            TableKind::Strings => Some(self.strings),
            TableKind::Files => Some(self.files),
            TableKind::Enumerations => Some(self.enumerations),
            TableKind::Unknown => None,
        }
    }

    // With `x` as that of a kind; a tag that is not listed changes nothing.
    fn set(self, kind: TableKind, x: T) -> SixTags<T>
        ensures { result ≡ with_kind (kind_in kind) x self }
    {
        match kind {
            TableKind::Lines => SixTags { lines: x, ..self },
            TableKind::Variables => SixTags {
                variables: x,
                ..self
            },
            TableKind::Functions => SixTags {
                functions: x,
                ..self
            },
            TableKind::Strings => SixTags { strings: x, ..self },
            TableKind::Files => SixTags { files: x, ..self },
            TableKind::Enumerations => SixTags {
                enumerations: x,
                ..self
            },
            TableKind::Unknown => self,
        }
    }
}

fn is_listed(kind: TableKind) -> bool
    ensures { result ≡ is_listed (kind_in kind) }
{
    !matches!(kind, TableKind::Unknown)
}

// Passes over the `n` entries from `at` on of a table of that kind.
fn skip_entries(cut: Cut, at: usize, kind: TableKind, n: usize) -> Result<usize, DebugFault>
    requires { at ≤ length cut.bytes.now }
    ensures { way_by (debug_fault_of cut.entry.bytes.now) result ≡ way_at (entries_of (kind_in kind) n) cut.entry.bytes.now at }
{
    // Kept: each arm is `skip` of another type, so a closure or a table of functions would name the same seven.
    match kind {
        TableKind::Lines => pass::<LineMapEntry>(cut, at, n).ok_or(DebugFault::Short),
        TableKind::Variables => skip::<VariableEntry>(cut, at, n),
        TableKind::Functions => skip::<FunctionNameEntry>(cut, at, n),
        TableKind::Strings => pass::<StringLayoutEntry>(cut, at, n).ok_or(DebugFault::Short),
        TableKind::Files => skip::<SourceFileEntry>(cut, at, n),
        TableKind::Enumerations => skip::<EnumerationEntry>(cut, at, n),
        TableKind::Unknown => Ok(at),
    }
}

// The payload at `at`: where its entries stand if its tag is listed, and the place after it. A listed table is read by its own count, any other is
// passed over by its row's size.
#[tactic(auto, using(crate::proofs::Payloads::listed_short, crate::proofs::Payloads::listed_err, crate::proofs::Payloads::listed_ok, crate::proofs::Payloads::other_short, crate::proofs::Payloads::other_ok))]
fn read_payload(
    cut: Cut,
    at: usize,
    kind: TableKind,
    size: usize,
) -> Result<(Table, usize), DebugFault>
    requires { at ≤ length cut.bytes.now }
    ensures { step_by (debug_fault_of cut.entry.bytes.now) as_it_is result ≡ step_at (payload_start (kind_in kind) size at) cut.entry.bytes.now at }
{
    if is_listed(kind) {
        if cut.left(at) < COUNT_SIZE {
            return Err(DebugFault::Short);
        }
        let table = Table {
            at: at + COUNT_SIZE,
            count: u16_at(cut.bytes, at) as usize,
        };
        let end = skip_entries(cut, table.at, kind, table.count)?;
        return Ok((table, end));
    }
    if cut.left(at) < size {
        return Err(DebugFault::Short);
    }
    Ok((Table { at: 0, count: 0 }, at + size))
}

// The rows of the section `s`; none where it ends before they do.
fn rows_of(s: &[u8]) -> Option<&[[u8; DIR_ENTRY_SIZE]]>
    ensures { MatchOption result (rows_of s.now ≡ fault short_input) (λ rows. RowsRead s.now rows.now) }
{
    let (count, rest) = s.split_first_chunk::<COUNT_SIZE>()?;
    let (rows, _) = rest.as_chunks();
    rows.get(..u16_at(count, 0) as usize)
}

// The section's reader: why it does not read, or where its tables in force stand. A later table of a tag replaces the earlier, even by an empty one.
pub fn tables_of(s: &[u8]) -> Result<DebugTables, DebugFault>
    ensures { got_by (debug_fault_of s.now) as_it_is result ≡ item_of (debug_starts s.now) }
{
    let cut = Cut::of(s);
    let Some(rows) = rows_of(cut.bytes) else {
        return Err(DebugFault::Short);
    };
    let mut tables = SixTags::all(Table { at: 0, count: 0 });
    let mut p = COUNT_SIZE + DIR_ENTRY_SIZE * rows.len();
    for row in rows {
        let kind = TableKind::from(u16_at(row, 0));
        let size = u32_at(row, ROW_SIZE_AT) as usize;
        let (table, end) = read_payload(cut, p, kind, size)?;
        tables = tables.set(kind, table);
        p = end;
    }
    Ok(tables)
}

// A table's count has two bytes. Empty body: the contract makes the checker prove it, of the bytes of a slice.
fn two_byte_counts(s: &[u8], t: DebugTables)
    requires { found t ≡ item_of (debug_starts s.now) }
    ensures { TwoByteCounts t }
{}

// The section's reader by its counts: why it does not read, or how many entries its tables have.
#[tactic(auto, using(crate::proofs::Counts::none_counted, crate::proofs::Counts::some_counted))]
pub fn read_from(s: &[u8]) -> Result<DebugCounts, DebugFault>
    ensures { got_by (debug_fault_of s.now) debug_counts_in result ≡ counts_read s.now }
{
    let t = tables_of(s)?;
    two_byte_counts(s, t);
    Ok(SixTags {
        lines: t.lines.count as u16,
        variables: t.variables.count as u16,
        functions: t.functions.count as u16,
        strings: t.strings.count as u16,
        files: t.files.count as u16,
        enumerations: t.enumerations.count as u16,
    })
}

// Which byte keeps the section from being read: where the first fault in it is a name or a path that lies whole in it and is not UTF-8, the place
// of its first bad byte, counted from the section's start. None where it reads, or ends before an announced item.
pub fn bad_place(s: &[u8]) -> Option<usize>
    ensures { bad_place_in result ≡ bad_place s.now }
{
    match tables_of(s) {
        Err(DebugFault::BadText(p)) => Some(p),
        Err(DebugFault::Short) => None,
        Ok(_) => None,
    }
}

// The claims of `specs/Laws.antt` hold. Empty body: the contract makes the checker prove them.
pub fn laws_hold()
    ensures { Laws }
{}
