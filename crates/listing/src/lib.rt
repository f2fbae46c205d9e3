// The lister's lines other than entries of tables: the container's, the debug section's, the end's, a refusal's. The whole listing of a file is a
// definition, in `specs/Listing.antt`.
#![tactic(auto)]

ghost use Rattle.base.specs.Error.{fault_of};
ghost use Rattle.lent.specs.Output.{Puts};
ghost use Rattle.header.specs.Answers.{header_in};
ghost use Rattle.listing.specs.Lines.{container_line, debug_line, end_line, refused_line};
ghost use Rattle.debug_tables.specs.Answers.{maybe_debug};
ghost use Rattle.listing.specs.Laws.{AllLaws};

use base::error::ContainerError;
use debug_tables::DebugCounts;
use header::FileHeader;
use lent::put_text;
use text::{put_dash_line, put_line};

pub fn put_container(out: &mut [u8], at: usize, h: FileHeader) -> Option<usize>
    ensures { Puts out.old at (container_line (header_in h)) out.new result }
{
    let ns = [h.format_version as u64, h.profile as u64, h.flags as u64];
    put_line(out, at, b"container", &ns)
}

// The counts of the debug tables.
pub fn put_debug(out: &mut [u8], at: usize, debug: Option<DebugCounts>) -> Option<usize>
    ensures { Puts out.old at (debug_line (maybe_debug debug)) out.new result }
{
    let Some(c) = debug else {
        return put_text(out, at, b"debug none\n");
    };
    let ns = [
        c.lines as u64,
        c.variables as u64,
        c.functions as u64,
        c.strings as u64,
        c.files as u64,
        c.enumerations as u64,
    ];
    put_line(out, at, b"debug", &ns)
}

pub fn put_end(out: &mut [u8], at: usize) -> Option<usize>
    ensures { Puts out.old at end_line out.new result }
{
    put_text(out, at, b"end\n")
}

// A refusal: its number, and its values, or a dash if it has none.
pub fn put_refused(out: &mut [u8], at: usize, e: ContainerError) -> Option<usize>
    ensures { Puts out.old at (refused_line (fault_of e)) out.new result }
{
    let values = e.values();
    let all = [e.number() as u64, values.first as u64, values.second as u64];
    let ns = &all[..1 + values.count];
    if values.count == 0 {
        return put_dash_line(out, at, b"refused", ns);
    }
    put_line(out, at, b"refused", ns)
}

// The claims of `specs/Laws.antt` hold. Empty body: the contract makes the checker prove them.
pub fn laws_hold()
    ensures { AllLaws }
{}
