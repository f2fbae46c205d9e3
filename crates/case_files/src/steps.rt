// The steps that every program of cases has: they make the file and the record's file, or lead to another line.
use crate::files::{copy, fill};
use crate::lines::{first_word, from_line, number, split_line, text};

// The lines that are left, those that `end` leads back to, and the lengths of the file and of the record's file.
#[derive(Clone, Copy)]
pub struct Now<'a> {
    pub rest: &'a [u8],
    pub back: &'a [u8],
    pub file: usize,
    pub own: usize,
}

impl<'a> Now<'a> {
    pub fn start(cases: &'a [u8]) -> Now<'a> {
        Now {
            rest: cases,
            back: cases,
            file: 0,
            own: 0,
        }
    }
}

#[derive(Clone, Copy, Debug, PartialEq, Eq)]
enum Word {
    // An empty line or a note.
    Note,
    Zeros,
    Put,
    Fill,
    Length,
    Record,
    Do,
    End,
    Stop,
}

// The step of a line's first word.
fn step_of(line: &[u8]) -> Option<Word> {
    match first_word(line) {
        b"" | b"#" => Some(Word::Note),
        b"zeros" => Some(Word::Zeros),
        b"put" => Some(Word::Put),
        b"fill" => Some(Word::Fill),
        b"length" => Some(Word::Length),
        b"record" => Some(Word::Record),
        b"do:" => Some(Word::Do),
        b"end" => Some(Word::End),
        b"stop" => Some(Word::Stop),
        _ => None,
    }
}

// Whether a line is empty, a note or one of these steps, and so prints nothing.
pub fn is_step(line: &[u8]) -> bool {
    step_of(line).is_some()
}

// Takes the step of the first line that is left; a line with another first word changes no file and leads to the next line.
pub fn step<'a>(cases: &'a [u8], file: &mut [u8], own: &mut [u8], now: Now<'a>) -> Now<'a> {
    let Some((line, behind)) = split_line(now.rest) else {
        return now;
    };
    let mut next = now;
    next.rest = behind;
    match step_of(line) {
        None | Some(Word::Note) => {}
        Some(Word::Zeros) => {
            file.fill(0);
            next.file = number(line, 1);
        }
        Some(Word::Put) => fill(file, number(line, 1), 1, text(line)),
        Some(Word::Fill) => fill(file, number(line, 1), number(line, 2), text(line)),
        Some(Word::Length) => next.file = number(line, 1),
        Some(Word::Record) => {
            copy(own, file, now.file);
            next.own = now.file;
        }
        Some(Word::Do) => {
            next.rest = from_line(cases, text(line));
            next.back = behind;
        }
        Some(Word::End) => next.rest = now.back,
        Some(Word::Stop) => next.rest = &[],
    }
    next
}
