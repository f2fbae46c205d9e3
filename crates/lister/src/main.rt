// Lists the container that comes on standard input, as document 01 says: a line for the container, one for each entry of its tables, and `end`; or one
// line with its refusal. The text comes from a proved function; the program reads and prints.
#![tactic(auto)]

use file_listing::{page, put_on_page};
use programs::{file_room, first, read_input, write};

fn main(rt: HostRuntime) {
    let mut file = file_room();
    let n = read_input(&rt, &mut file);
    let mut text = page();
    let end = put_on_page(&mut text, &file[..n]);
    write(&rt, first(&text, end));
}
