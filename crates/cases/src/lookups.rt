// Lookups over a file and a record, each by its kind; where walks start; the debug section's bad place and state; the rows that the record holds.
use answer_numbers::answer_numbers;
use base::error::ContainerError;
use base::id_types::{ConstantIndex, FunctionId};
use case_files::Field::{self, Number, Signed, Text};
use case_files::{first_word, index, print_answer, print_number};
use container::DebugState;
use debug_tables::in_force::{RowsInForce, TableRow};
use debug_text::DebugFault;
use lookup_kinds::kinds::Kind;
use programs::{write, write_decimal};
use reading::Table;
use record::Container;

// The words of the kinds of lookups.
const KINDS: [(&[u8], Kind); 26] = [
    (b"task", Kind::Task),
    (b"program", Kind::Program),
    (b"fb_type", Kind::FbType),
    (b"field", Kind::Field),
    (b"array", Kind::Array),
    (b"array_size", Kind::ArraySize),
    (b"user_fb", Kind::UserFb),
    (b"constant", Kind::Constant),
    (b"i32", Kind::GetI32),
    (b"u32", Kind::GetU32),
    (b"i64", Kind::GetI64),
    (b"u64", Kind::GetU64),
    (b"f32", Kind::GetF32),
    (b"f64", Kind::GetF64),
    (b"str", Kind::GetStr),
    (b"char_width", Kind::CharWidth),
    (b"function", Kind::Function),
    (b"bytecode", Kind::Bytecode),
    (b"source_line", Kind::Line),
    (b"line", Kind::LineEntry),
    (b"variable", Kind::Variable),
    (b"function_name", Kind::FunctionName),
    (b"string_layout", Kind::StringLayout),
    (b"source_file", Kind::SourceFile),
    (b"enumeration", Kind::Enumeration),
    (b"enumeration_value", Kind::EnumerationValue),
];

// The kind of a lookup by its word.
fn kind_of(word: &[u8]) -> Option<Kind> {
    let (_, kind) = KINDS.iter().find(|(name, _)| *name == word)?;
    Some(*kind)
}

// The fields that are printed of an answer: a task's interval, a program's variable count, an FB type's field count, a field's extra, an array's stride, a
// user FB's variable offset, a function's length, the place and size of a string or of bytecode; a source line and column; a variable's index, name and type
// name; a function's id and name; a string layout's variable, data offset and length; a path; an enumeration's name and value count; a value's name; of others
// the first number.
fn fields_of(kind: Kind) -> &'static [Field] {
    match kind {
        Kind::Task | Kind::Program => &[Number(5)],
        Kind::FbType | Kind::Field => &[Number(2)],
        Kind::Array => &[Number(4)],
        Kind::UserFb | Kind::Function => &[Number(3)],
        Kind::GetI32 | Kind::GetI64 => &[Signed(1)],
        Kind::GetStr | Kind::Bytecode => &[Number(1), Number(2)],
        Kind::Line | Kind::LineEntry => &[Number(4), Number(5)],
        Kind::Variable => &[Number(1), Text(5), Text(7)],
        Kind::FunctionName => &[Number(1), Text(2)],
        Kind::StringLayout => &[Number(1), Number(2), Number(3)],
        Kind::SourceFile | Kind::EnumerationValue => &[Text(1)],
        Kind::Enumeration => &[Text(1), Number(3)],
        _ => &[Number(1)],
    }
}

// Some bytes of the file that a lookup returns.
fn returned(rt: &impl Print, bytes: &[u8]) {
    write(rt, b"  returned: \"");
    write(rt, bytes);
    write(rt, b"\"\n");
}

// The lookup at an index, and at an index within it where it takes two; of a string and of bytecode also the bytes that are returned.
fn lookup(rt: &impl Print, c: Container, file: &[u8], kind: Kind, i: u16, j: u16) {
    let answer = lookup_kinds::lookup(c, file, kind.number(), i, j);
    print_answer(rt, file, answer, fields_of(kind));
    match kind {
        Kind::GetStr => returned(rt, c.get_str(file, ConstantIndex(i))),
        Kind::Bytecode => returned(rt, c.get_function_bytecode(file, FunctionId(i))),
        _ => {}
    }
}

// Where a walk over a table starts, by its word.
fn start(c: Container, file: &[u8], word: &[u8]) -> Option<Result<Table, ContainerError>> {
    match word {
        b"tasks:" => Some(c.tasks(file)),
        b"programs:" => Some(c.programs(file)),
        b"fb_types:" => Some(c.fb_types(file)),
        b"arrays:" => Some(c.arrays(file)),
        b"user_fbs:" => Some(c.user_fbs(file)),
        b"constants:" => Some(c.constants(file)),
        b"functions:" => Some(c.functions(file)),
        b"debug_tables:" => Some(c.debug_tables(file).map(|t| t.lines)),
        _ => None,
    }
}

// How many entries the walk starts with.
fn walk(rt: &impl Print, file: &[u8], start: Result<Table, ContainerError>) {
    let answer = answer_numbers(start.map(|t| t.count as u64));
    print_answer(rt, file, answer, &[Number(1)]);
}

fn bad_place(rt: &impl Print, c: Container, file: &[u8]) {
    match c.bad_place(file) {
        None => write(rt, b" none"),
        Some(p) => print_number(rt, p as u64),
    }
    write(rt, b"\n");
}

fn unreadable(rt: &impl Print, fault: DebugFault) {
    match fault {
        DebugFault::Short => write(rt, b" ends too early"),
        DebugFault::BadText(p) => {
            write(rt, b" bad at");
            print_number(rt, p as u64);
        }
    }
}

fn debug_state(rt: &impl Print, c: Container, file: &[u8]) {
    match container::debug_state(file, c.header) {
        DebugState::Empty => write(rt, b" empty"),
        DebugState::Outside => write(rt, b" outside"),
        DebugState::HashDiffers => write(rt, b" hash differs"),
        DebugState::Unreadable(e) => unreadable(rt, e),
        DebugState::Read(_) => write(rt, b" read"),
    }
    write(rt, b"\n");
}

// A row and how many it replaced.
fn table_row(rt: &impl Print, t: TableRow) {
    match t.row {
        None => write(rt, b" none"),
        Some(i) => print_number(rt, i as u64),
    }
    write(rt, b"+");
    write_decimal(rt, t.replaced as u64);
}

// Of the tags 1, 2, 3, 4, 6 and 9.
fn in_force(rt: &impl Print, u: RowsInForce) {
    table_row(rt, u.lines);
    table_row(rt, u.variables);
    table_row(rt, u.functions);
    table_row(rt, u.strings);
    table_row(rt, u.files);
    table_row(rt, u.enumerations);
    write(rt, b"\n");
}

// The line's lookup, walk, bad place or state over a file and the record of another, or that record's rows. An unknown word prints nothing.
fn ask(rt: &impl Print, c: Container, file: &[u8], line: &[u8]) {
    let word = first_word(line);
    if let Some(kind) = kind_of(word) {
        lookup(rt, c, file, kind, index(line, 1), index(line, 2));
    }
    if let Some(table) = start(c, file, word) {
        walk(rt, file, table);
    }
    match word {
        b"bad_place:" => bad_place(rt, c, file),
        b"debug_state:" => debug_state(rt, c, file),
        b"in_force:" => in_force(rt, c.in_force),
        _ => {}
    }
}

// The record of `own`, with 21 as the size of its code if that is asked for.
pub fn over(rt: &impl Print, own: &[u8], short_code: bool, file: &[u8], line: &[u8]) {
    if let Ok(mut c) = container::read_from(own) {
        if short_code {
            c.header.sections.code_section.size = 21;
        }
        ask(rt, c, file, line);
    }
}
