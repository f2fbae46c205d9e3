// Runs `utf8::valid_up_to` on the edges of every row of Unicode's table of well-formed byte sequences (The Unicode
// Standard, table 3-7). Writes a line for each text: its bytes, and how far it is valid.
#![tactic(auto)]

ghost use Rattle.std.specs.Prelude.{◌<◌};

fn show(rt: &impl Print, s: &[u8]) {
    for (i, b) in s.iter().enumerate() {
        if 0 < i {
            let _ = rt.write_all(b" ");
        }
        let _ = print!(rt; "{b:02x}");
    }
    let n = utf8::valid_up_to(s);
    let _ = println!(rt; ": {n}");
}

// The text with `b` at `at`.
fn show_with<const N: usize>(rt: &impl Print, text: [u8; N], at: usize, b: u8)
    requires { at < N }
{
    let mut other = text;
    other[at] = b;
    show(rt, &other);
}

// A row at one of its bytes: that byte at its lowest, at its highest, one below and one above, and the others at
// their lowest; and the sequence cut off behind it.
fn edges<const N: usize>(rt: &impl Print, low: [u8; N], at: usize, last: u8)
    requires { at < N }
{
    let first = low[at];
    show_with(rt, low, at, first);
    show_with(rt, low, at, last);
    if 0 < first {
        show_with(rt, low, at, first - 1);
    }
    if last < 0xFF {
        show_with(rt, low, at, last + 1);
    }
    show(rt, &low[..at + 1]);
}

// A row of the table: N bytes, each from that of `low` to that of `high`.
fn row<const N: usize>(rt: &impl Print, low: [u8; N], high: [u8; N]) {
    for (at, last) in high.iter().enumerate() {
        edges(rt, low, at, *last);
    }
}

fn main(rt: HostRuntime) {
    row(&rt, [0x00], [0x7F]);
    row(&rt, [0xC2, 0x80], [0xDF, 0xBF]);
    row(&rt, [0xE0, 0xA0, 0x80], [0xE0, 0xBF, 0xBF]);
    row(&rt, [0xE1, 0x80, 0x80], [0xEC, 0xBF, 0xBF]);
    row(&rt, [0xED, 0x80, 0x80], [0xED, 0x9F, 0xBF]);
    row(&rt, [0xEE, 0x80, 0x80], [0xEF, 0xBF, 0xBF]);
    row(&rt, [0xF0, 0x90, 0x80, 0x80], [0xF0, 0xBF, 0xBF, 0xBF]);
    row(&rt, [0xF1, 0x80, 0x80, 0x80], [0xF3, 0xBF, 0xBF, 0xBF]);
    row(&rt, [0xF4, 0x80, 0x80, 0x80], [0xF4, 0x8F, 0xBF, 0xBF]);
    // Bytes that start no sequence, the empty text, and a text that is valid only at its start.
    show(&rt, b"\x80");
    show(&rt, b"\xC0");
    show(&rt, b"\xC1");
    show(&rt, b"\xF5");
    show(&rt, b"\xFF");
    show(&rt, b"");
    show(&rt, b"z\xC3\x9F\xE6\xB0\xB4\xF0\x9F\x8D\x8C\xED\xA0\x80");
    // Runs of sequences that are alike, and what ends them.
    show(&rt, b"0123456789abcdefghijklmnopqrstuvwxyz\x80");
    show(&rt, b"\xC3\x9F\xC3\x9F\xC1\xBF");
    show(&rt, b"\xC3\x9F\xC3\x9Fz\xC3");
    show(&rt, b"\xE6\xB0\xB4\xE6\xB0\xB4\xED\xA0\x80");
    show(&rt, b"\xE6\xB0\xB4\xE6\xB0\xB4\xE0\xA0\x80\xE6\xB0");
}
