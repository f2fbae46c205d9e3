// Which table of each tag is in force in the debug section `s`: its row, and how many earlier rows of the tag it replaced.
ghost use Rattle.std.specs.Prelude.{◌≡◌, ◌<◌};
ghost use Rattle.format.specs.InForce.{none_in_force, in_force_in};
ghost use Rattle.debug_tables.specs.Answers.{kind_in, table_row_in, rows_in_force};
ghost use Rattle.debug_tables.specs.LaterRows.{later_row, put_row, FewReplaced};

use crate::{SixTags, TableKind, rows_of};
use reading::u16_at;

// Of one tag: the row of the table in force, counted from 0 over the rows of every tag, none where no row has the tag; and how many earlier rows it
// replaced.
#[derive(Clone, Copy)]
pub struct TableRow {
    pub row: Option<u16>,
    pub replaced: u16,
}

pub type RowsInForce = SixTags<TableRow>;

// No table is in force: six times none, and 0 replaced.
pub fn none_in_force() -> RowsInForce
    ensures { rows_in_force result ≡ none_in_force }
{
    SixTags::all(TableRow {
        row: None,
        replaced: 0,
    })
}

// The row `i`, which replaces `t` and all that `t` replaced. A directory has at most 65,535 rows, so the count fits.
fn later_row(t: TableRow, i: u16) -> TableRow
    requires { t.replaced < 65535 }
    ensures { table_row_in result ≡ later_row (table_row_in t) i }
{
    let replaced = match t.row {
        None => 0,
        Some(_) => t.replaced + 1,
    };
    TableRow {
        row: Some(i),
        replaced,
    }
}

// Puts the row `i` in force for its kind.
#[tactic(auto, using(crate::proofs::LaterRows::put_some))]
fn put_row(rows: RowsInForce, kind: TableKind, i: u16) -> RowsInForce
    requires { FewReplaced rows }
    ensures { rows_in_force result ≡ put_row (kind_in kind) i (rows_in_force rows) }
{
    match rows.get(kind) {
        None => rows,
        Some(t) => rows.set(kind, later_row(t, i)),
    }
}

// The section's rows in force, by its directory alone; none where the section ends before its rows do.
pub fn rows_in_force(s: &[u8]) -> RowsInForce
    ensures { rows_in_force result ≡ in_force_in s.now }
{
    let mut in_force = none_in_force();
    let Some(rows) = rows_of(s) else {
        return in_force;
    };
    for (i, row) in rows.iter().enumerate() {
        let kind = TableKind::from(u16_at(row, 0));
        in_force = put_row(in_force, kind, i as u16);
    }
    in_force
}
