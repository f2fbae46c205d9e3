// The numbers of a record in the buffer that the caller lends.
ghost use Rattle.std.specs.Prelude.{◌≤◌, ◌∷◌, length};
ghost use Rattle.header.specs.Answers.{header_in};
ghost use Rattle.record.specs.Answers.{container_in};
ghost use Rattle.lent.specs.Output.{Wrote};
ghost use Rattle.record_numbers.specs.ToNumbers.{header_numbers, lookup_numbers, record_numbers};
ghost use Rattle.capi.specs.Lent.{room};

use header::FileHeader;
use lent::put;
use record::Container;
use record_numbers::{debug_counts, directory, head, in_force, runtime, task_counts, type_counts};

fn put_header(out: &mut [u64], h: FileHeader) -> usize
    requires { room ≤ length out.old }
    ensures { Wrote out.old 0 (0 ∷ header_numbers (header_in h)) out.new result }
{
    let n = put(out, 0, &head(h));
    let m = put(out, n, &directory(h.sections));
    put(out, m, &runtime(h.runtime))
}

// A 0 and the numbers that stand for the record in a lookup.
fn put_lookup_numbers(out: &mut [u64], c: Container) -> usize
    requires { room ≤ length out.old }
    ensures { Wrote out.old 0 (0 ∷ lookup_numbers (container_in c)) out.new result }
{
    let n = put_header(out, c.header);
    let m = put(out, n, &task_counts(c.tasks));
    let k = put(out, m, &type_counts(c.types));
    let j = put(out, k, &[c.constants as u64]);
    put(out, j, &debug_counts(c.debug))
}

// A 0 and the record's numbers: behind those that a lookup needs, the rows of the debug tables in force.
pub fn put_record(out: &mut [u64], c: Container) -> usize
    requires { room ≤ length out.old }
    ensures { Wrote out.old 0 (0 ∷ record_numbers (container_in c)) out.new result }
{
    let n = put_lookup_numbers(out, c);
    put(out, n, &in_force(c.in_force))
}
