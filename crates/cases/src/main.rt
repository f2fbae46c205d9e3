// Document 01's unstarred cases, every row of its table of refusals with a small file that gives it, lookups over records that were not
// read from that file, the readings of unclear sentences (docs/DECISIONS.md, 1 to 21), and the cases of document 02's slips 1 and 2. They come on
// standard input, one step to a line, as its first lines say; each prints its name and then the answer.
#![tactic(auto)]

use case_files::{Now, first_word, is_step, print_name, split_line, step, text};
use programs::{file_room, first, read_input, write};

mod loads;
mod lookups;

// More than the steps taken.
const MOST_STEPS: usize = 65536;

// What a line prints; one with an unknown first word prints its name and no answer.
fn print(rt: &impl Print, line: &[u8], file: &[u8], own: &[u8], short_code: bool) {
    let word = first_word(line);
    if is_step(line) || word == b"short_code".as_slice() {
        return;
    }
    print_name(rt, text(line));
    match word {
        b"title:" => write(rt, b"\n"),
        b"load:" => loads::load(rt, file),
        b"program:" => loads::load_in_program(rt, file),
        b"hash_alone" => loads::hash_alone(rt, line),
        _ => lookups::over(rt, own, short_code, file, line),
    }
}

// Whether lookups use the record with another size of its code.
fn is_short(line: &[u8], short_code: bool) -> bool {
    match first_word(line) {
        b"record" => false,
        b"short_code" => true,
        _ => short_code,
    }
}

fn run(rt: &impl Print, cases: &[u8], file: &mut [u8], own: &mut [u8]) {
    let mut now = Now::start(cases);
    let mut short_code = false;
    for _ in 0..MOST_STEPS {
        let Some((line, _)) = split_line(now.rest) else {
            return;
        };
        short_code = is_short(line, short_code);
        print(
            rt,
            line,
            first(file, now.file),
            first(own, now.own),
            short_code,
        );
        now = step(cases, file, own, now);
    }
}

fn main(rt: HostRuntime) {
    let mut cases = file_room();
    let n = read_input(&rt, &mut cases);
    let mut file = file_room();
    let mut own = file_room();
    run(&rt, &cases[..n], &mut file, &mut own);
}
