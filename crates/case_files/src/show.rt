// What is printed of an answer: a case's name, and then the answer's refusal or some of its numbers.
use answer_numbers::Numbers;
use base::section::Part;
use programs::{write, write_decimal};

// A field of an answer, by its place among the numbers.
#[derive(Clone, Copy, Debug, PartialEq, Eq)]
pub enum Field {
    Number(u8),
    Signed(u8),
    // A text in the file, by its offset and size.
    Text(u8),
}

pub fn print_name(rt: &impl Print, text: &[u8]) {
    write(rt, text);
    write(rt, b":");
}

pub fn print_number(rt: &impl Print, n: u64) {
    write(rt, b" ");
    write_decimal(rt, n);
}

// A number of 64 bits in two's complement.
fn print_signed(rt: &impl Print, n: u64) {
    write(rt, b" ");
    let _ = rt.print(n.cast_signed());
}

// A part of the file.
fn print_part(rt: &impl Print, file: &[u8], offset: u64, size: u64) {
    let p = Part {
        offset: offset as usize,
        size: size as usize,
    };
    write(rt, b" ");
    write(rt, p.of(file));
}

// The number at a place; zero where there is none, as answers that have fewer numbers are printed.
fn at(numbers: &[u64], i: u8) -> u64 {
    numbers.get(i as usize).copied().unwrap_or(0)
}

// A refusal as the lister prints it: its number, and its values or a dash.
fn print_refusal(rt: &impl Print, numbers: &[u64]) {
    write(rt, b" refused");
    for n in numbers {
        print_number(rt, *n);
    }
    if numbers.len() < 2 {
        write(rt, b" -");
    }
}

fn print_field(rt: &impl Print, file: &[u8], numbers: &[u64], field: Field) {
    match field {
        Field::Number(i) => print_number(rt, at(numbers, i)),
        Field::Signed(i) => print_signed(rt, at(numbers, i)),
        Field::Text(i) => print_part(rt, file, at(numbers, i), at(numbers, i.saturating_add(1))),
    }
}

// An answer: its refusal, or these of its fields.
pub fn print_answer(rt: &impl Print, file: &[u8], answer: Numbers, fields: &[Field]) {
    let numbers = answer.as_slice();
    if at(numbers, 0) > 0 {
        print_refusal(rt, numbers);
    } else {
        for field in fields {
            print_field(rt, file, numbers, *field);
        }
    }
    write(rt, b"\n");
}
