// Texts and numbers, printed.
use refusals::Refusal;

pub(crate) fn say(text: &[u8]) {
    io::write_all(1, text);
}

// A text and a number.
pub(crate) fn say_number(text: &[u8], x: u32) {
    say(text);
    io::print_decimal(1, u64::from(x));
}

pub(crate) fn say_refusal(refusal: Refusal) {
    say_number(b": refused ", refusal.number());
}

pub(crate) fn say_signed(z: i32) {
    let mut out = [0u8; 11];
    let len = text::put_number(&mut out, 0, z);
    say(&out[..len]);
}

// A text and the number of each byte, with nothing between them.
pub(crate) fn say_bytes(text: &[u8], bytes: &[u8]) {
    say(text);
    for x in bytes {
        io::print_decimal(1, u64::from(*x));
    }
}

// A text and the number of each byte, a space before each.
pub(crate) fn say_spaced(text: &[u8], bytes: &[u8]) {
    say(text);
    for x in bytes {
        say_number(b" ", u32::from(*x));
    }
}

// A text and each number, a space before each.
pub(crate) fn say_all<T: Copy + Into<i32>>(text: &[u8], numbers: &[T]) {
    say(text);
    for y in numbers {
        say(b" ");
        say_signed((*y).into());
    }
}
