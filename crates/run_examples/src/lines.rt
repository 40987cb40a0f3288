// A line's words and numbers. A place in a line is that of the space before the next word, or the line's end.
ghost use Rattle.std.specs.Prelude.{◌≤◌, length};

// 0 past the end.
pub(crate) fn byte_at(line: &[u8], at: usize) -> u8 {
    line.get(at).copied().unwrap_or(0)
}

// The first place of a byte from `from` on, or the end.
pub(crate) fn find(line: &[u8], from: usize, byte: u8) -> usize
    requires { from ≤ length line.now }
    ensures { (from ≤ result) × (result ≤ length line.now) }
{
    for i in from..line.len() {
        if line[i] == byte {
            return i;
        }
    }
    line.len()
}

// The place behind the word at a place.
pub(crate) fn word_end(line: &[u8], at: usize) -> usize {
    if at >= line.len() {
        return at;
    }
    for i in at + 1..line.len() {
        if line[i] <= b' ' {
            return i;
        }
    }
    line.len()
}

// A number, and the place behind it.
#[derive(Clone, Copy)]
pub(crate) struct Read {
    pub value: u32,
    pub at: usize,
}

// A number with one more digit, kept below 4,000,000,000.
fn with_digit(value: u32, digit: u8) -> u32 {
    value % 400000000 * 10 + u32::from(digit % 10)
}

// The digits behind a place.
fn number(line: &[u8], at: usize) -> Read {
    let mut value = 0;
    if at >= line.len() {
        return Read { value, at };
    }
    for i in at + 1..line.len() {
        if line[i] < b'0' {
            return Read { value, at: i };
        }
        value = with_digit(value, line[i] - b'0');
    }
    Read {
        value,
        at: line.len(),
    }
}

// The negative of a number, as the number of 32 bits that stands for it.
fn negative(x: Read) -> Read {
    Read {
        value: x.value.wrapping_neg(),
        at: x.at,
    }
}

// The number behind a place; none where a label or the line's end comes next.
pub(crate) fn next(line: &[u8], at: usize) -> Option<Read> {
    if at >= line.len() {
        return None;
    }
    let byte = byte_at(line, at + 1);
    if byte == b'-' {
        return Some(negative(number(line, at + 1)));
    }
    if byte <= b'9' {
        return Some(number(line, at));
    }
    None
}

// A length that was read, cut to what there is room for.
pub(crate) fn least(a: u32, b: usize) -> usize
    ensures { result ≤ b }
{
    b.min(a as usize)
}
