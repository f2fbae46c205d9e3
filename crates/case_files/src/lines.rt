// A line of the cases: words with a space between them, and then, after a colon and a space, its text.
ghost use Rattle.std.specs.Prelude.{◌<◌, length, IfSome};

// The first line, and the lines behind it; none where no line is left.
pub fn split_line(cases: &[u8]) -> Option<(&[u8], &[u8])>
    ensures { IfSome result (λ x. length x.1.now < length cases.now) }
{
    if cases.is_empty() {
        return None;
    }
    let end = cases
        .iter()
        .position(|b| *b == b'\n')
        .unwrap_or(cases.len());
    let (line, behind) = cases.split_at(end);
    Some((line, behind.get(1..).unwrap_or(&[])))
}

// A line's words.
fn word(line: &[u8], n: usize) -> &[u8] {
    line.split(|b| *b == b' ').nth(n).unwrap_or(&[])
}

pub fn first_word(line: &[u8]) -> &[u8] {
    word(line, 0)
}

// What follows its first colon and a space.
pub fn text(line: &[u8]) -> &[u8] {
    let behind = line.splitn(2, |b| *b == b':').nth(1).unwrap_or(&[]);
    behind.get(1..).unwrap_or(&[])
}

// The lines from the first one on that is `wanted`; none if there is no such line.
pub fn from_line<'a>(cases: &'a [u8], wanted: &[u8]) -> &'a [u8] {
    let mut rest = cases;
    while let Some((line, behind)) = split_line(rest) {
        if line == wanted {
            return rest;
        }
        rest = behind;
    }
    &[]
}

// The number in a word of a line, the first being word 0: of its decimal digits, at most seven; any other byte is passed over.
pub fn number(line: &[u8], n: usize) -> usize {
    let mut number = 0;
    for b in word(line, n) {
        if b.is_ascii_digit() && number < 1000000 {
            number = 10 * number + (*b - b'0') as usize;
        }
    }
    number
}

// The same as an index, at most 65,535.
pub fn index(line: &[u8], n: usize) -> u16 {
    u16::try_from(number(line, n)).unwrap_or(u16::MAX)
}
