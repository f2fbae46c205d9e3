// Lists 400 files, whose listings by the Rust's release build are the expected output. Standard input has the files one after the other, each behind
// its length of two bytes, low byte first; a line with a full stop closes each listing.
#![tactic(auto)]

use file_listing::{page, put_on_page};
use programs::{first, read_full, write};

// More than the files have.
const ROOM: usize = 262144;

// Kept: the room is made by a function, since the check of a function that has so long an array in it runs out of stack.
fn room() -> [u8; ROOM] {
    [0; ROOM]
}

fn list(rt: &impl Print, file: &[u8]) {
    let mut text = page();
    let end = put_on_page(&mut text, file);
    write(rt, first(&text, end));
    write(rt, b".\n");
}

fn replay(rt: &impl Print, files: &[u8]) {
    let mut rest = files;
    while let Some((length, behind)) = rest.split_first_chunk::<2>() {
        let Some((file, more)) = behind.split_at_checked(u16::from_le_bytes(*length) as usize)
        else {
            return;
        };
        list(rt, file);
        rest = more;
    }
}

fn main(rt: HostRuntime) {
    let mut files = room();
    let n = read_full(&mut rt.reader(), &mut files);
    replay(&rt, &files[..n]);
}
