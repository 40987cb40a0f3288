// Numbers and bits, printed.
use refusals::Refusal;

// A byte of text.
pub(crate) fn print_byte(x: u8) {
    let text = [x];
    io::write_all(1, &text);
}

// A letter and a number, a space before each.
pub(crate) fn print_named(letter: u8, x: u32) {
    print_byte(b' ');
    print_byte(letter);
    print_byte(b' ');
    io::print_decimal(1, x as u64);
}

pub(crate) fn print_refused(refusal: Refusal) {
    io::write_all(1, b"refused ");
    io::print_decimal(1, refusal.number() as u64);
    print_byte(b'\n');
}

pub(crate) fn print_signed(z: i32) {
    let mut out = [0u8; 11];
    let len = text::put_number(&mut out, 0, z);
    io::write_all(1, &out[..len]);
}

// What the digit of four positions stands for: the first counts 8, the last 1. What is no bit makes it two digits.
fn digit(a: u8, b: u8, c: u8, d: u8) -> u64 {
    if (a | b | c | d) > 1 {
        return 255;
    }
    8 * (a as u64) + 4 * (b as u64) + 2 * (c as u64) + d as u64
}

// Bits in hexadecimal, a space before them.
pub(crate) fn print_bits(bits: &[u8]) {
    print_byte(b' ');
    for four in bits.chunks_exact(4) {
        let x = digit(four[0], four[1], four[2], four[3]);
        io::print_hex(1, x, 1);
    }
}
