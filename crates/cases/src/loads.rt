// How a file loads, and the hash alone.
use answer_numbers::refusal;
use base::error::ContainerError;
use blake3::HASH_LIMIT;
use case_files::{number, print_answer, print_number};
use container::{read_for_program, read_from};
use debug_tables::DebugCounts;
use programs::{first, write};
use record::Container;
use type_section::TypeCounts;

fn refused(rt: &impl Print, e: ContainerError) {
    print_answer(rt, b"", refusal(e), &[]);
}

fn counts(rt: &impl Print, counts: &[u16]) {
    for n in counts {
        print_number(rt, *n as u64);
    }
}

fn types(rt: &impl Print, types: Option<TypeCounts>) {
    match types {
        None => write(rt, b", no types"),
        Some(t) => {
            write(rt, b", types");
            counts(rt, &[t.fb_types, t.arrays, t.user_fbs]);
        }
    }
}

fn debug(rt: &impl Print, debug: Option<DebugCounts>) {
    write(rt, b", debug");
    match debug {
        None => write(rt, b" none"),
        Some(d) => counts(
            rt,
            &[
                d.lines,
                d.variables,
                d.functions,
                d.strings,
                d.files,
                d.enumerations,
            ],
        ),
    }
    write(rt, b"\n");
}

// Its refusal, or which counts its types and debug have.
fn read(rt: &impl Print, answer: Result<Container, ContainerError>) {
    match answer {
        Err(e) => refused(rt, e),
        Ok(c) => {
            write(rt, b" loaded");
            types(rt, c.types);
            debug(rt, c.debug);
        }
    }
}

pub fn load(rt: &impl Print, file: &[u8]) {
    read(rt, read_from(file));
}

pub fn load_in_program(rt: &impl Print, file: &[u8]) {
    read(rt, read_for_program(file));
}

// The hash alone of n zero bytes, n being the line's number: it is given, or refused.
pub fn hash_alone(rt: &impl Print, line: &[u8]) {
    // One byte over the hash limit.
    let zeros = [0; HASH_LIMIT + 1];
    match blake3::hash(first(&zeros, number(line, 1))) {
        Err(e) => refused(rt, e),
        Ok(_) => write(rt, b" hashed\n"),
    }
}
