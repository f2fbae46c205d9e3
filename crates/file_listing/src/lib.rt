// The whole listing of a file, in a buffer that the caller lends.
#![tactic(auto)]

ghost use Rattle.std.specs.Prelude.{◌≡◌, length, replicate};
ghost use Rattle.lent.specs.Output.{Wrote, PutsRestFree};
ghost use Rattle.record.specs.Answers.{container_in};
ghost use Rattle.table_lines.specs.Whole.{types_text, debug_text, file_text};
ghost use Rattle.listing_room.specs.Laws.{listing_room};
ghost use Rattle.file_listing.specs.Texts.{file_listing, program_listing};

use base::error::ContainerError;
use base::section::PROGRAM_LIMIT;
use container::read_from;
use listing::{put_container, put_debug, put_end, put_refused};
use record::Container;
use table_lines::{
    put_arrays, put_constants, put_fb_types, put_functions, put_lines, put_programs, put_tasks,
    put_user_fbs,
};

// The types: FB types, arrays, user FBs.
fn put_types(out: &mut [u8], at: usize, file: &[u8], c: Container) -> Option<usize>
    ensures { PutsRestFree out.old at (types_text file.now (container_in c)) out.new result }
{
    let n = put_fb_types(out, at, file, c)?;
    let n = put_arrays(out, n, file, c)?;
    put_user_fbs(out, n, file, c)
}

// The debug section: its counts and its lines.
fn put_debug_text(out: &mut [u8], at: usize, file: &[u8], c: Container) -> Option<usize>
    ensures { PutsRestFree out.old at (debug_text file.now (container_in c)) out.new result }
{
    let n = put_debug(out, at, c.debug)?;
    put_lines(out, n, file, c)
}

// A file and its record.
fn put_loaded(out: &mut [u8], at: usize, file: &[u8], c: Container) -> Option<usize>
    ensures { PutsRestFree out.old at (file_text file.now (container_in c)) out.new result }
{
    let n = put_container(out, at, c.header)?;
    let n = put_tasks(out, n, file, c)?;
    let n = put_programs(out, n, file, c)?;
    let n = put_types(out, n, file, c)?;
    let n = put_constants(out, n, file, c)?;
    let n = put_functions(out, n, file, c)?;
    let n = put_debug_text(out, n, file, c)?;
    put_end(out, n)
}

// The listing of a file, whether it loads or is refused.
pub fn put_file(out: &mut [u8], at: usize, file: &[u8]) -> Option<usize>
    ensures { PutsRestFree out.old at (file_listing file.now) out.new result }
{
    match read_from(file) {
        Ok(c) => put_loaded(out, at, file, c),
        Err(e) => put_refused(out, at, e),
    }
}

// The listing that a program prints of a file: above the programs' limit the line of refusal 10, whatever the library's limit is.
pub fn put_file_for_program(out: &mut [u8], at: usize, file: &[u8]) -> Option<usize>
    ensures { PutsRestFree out.old at (program_listing file.now) out.new result }
{
    if file.len() > PROGRAM_LIMIT {
        return put_refused(out, at, ContainerError::TooLong);
    }
    put_file(out, at, file)
}

// Room for what a program lists of any file, also where its sections overlap (`listing_room`).
pub const PAGE: usize = 2097152;

// Zeros.
// Kept: a page of fixed size, since there is no heap.
pub fn page() -> [u8; PAGE]
    ensures { result ≡ replicate listing_room 0 }
{
    [0; PAGE]
}

// What a program lists, at the start of a page; the result is its length. There is always room, so the 0 is never answered.
pub fn put_on_page(page: &mut [u8; PAGE], file: &[u8]) -> usize
    ensures text { Wrote page.old 0 (program_listing file.now) page.new result }
    ensures room { listing_room ≡ length page.new }
{
    put_file_for_program(page, 0, file).unwrap_or(0)
}
