// The bytes of a case's file.
ghost use Rattle.std.specs.Prelude.{◌<◌, IfSome};

// Copies the first n bytes of a file, followed by zeros.
pub fn copy(to: &mut [u8], from: &[u8], n: usize) {
    let n = n.min(from.len()).min(to.len());
    to[..n].copy_from_slice(&from[..n]);
    to[n..].fill(0);
}

// A hexadecimal digit's number; none for any other byte.
pub fn digit(b: u8) -> Option<u8>
    ensures { IfSome result (λ n. n < 16) }
{
    match b {
        b'0'..=b'9' => Some(b - b'0'),
        b'A'..=b'F' => Some(b - b'A' + 10),
        _ => None,
    }
}

// The byte whose two hexadecimal digits these bytes begin with; none if they do not.
fn byte_of(digits: &[u8]) -> Option<u8> {
    let high = digit(*digits.first()?)?;
    let low = digit(*digits.get(1)?)?;
    Some(16 * high + low)
}

// Writes bytes from a place on, given as two hexadecimal digits each with a space between them; other digits make a zero. What would lie outside the file
// is left out. Answers the place behind them.
pub fn put(file: &mut [u8], at: usize, text: &[u8]) -> usize {
    let mut place = at;
    for digits in text.chunks(3) {
        if let Some(b) = file.get_mut(place) {
            *b = byte_of(digits).unwrap_or(0);
            place += 1;
        }
    }
    place
}

// Writes bytes that many times, one time behind the other.
pub fn fill(file: &mut [u8], at: usize, times: usize, text: &[u8]) {
    let mut place = at;
    for _ in 0..times {
        place = put(file, place, text);
    }
}
