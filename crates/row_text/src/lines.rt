// The lines that the program writes.
ghost use Rattle.std.specs.Prelude.{◌++◌, ◌+◌, ◌≤◌, length};
ghost use Rattle.text.specs.BitText.{bit_text};
ghost use Rattle.text.specs.Decimal.{decimal, signed_decimal};
ghost use Rattle.text.specs.Words.{space};
ghost use Rattle.place.specs.Put.{Put, Begins};
ghost use Rattle.row_text.specs.Output.{refused_text, frame_line, row_line};

use place::put_byte;
use text::{put_bits, put_named, put_number};

// A line of its own: the refusal number.
pub fn write_refused(k: u32, out: &mut [u8]) -> usize
    requires { 19 ≤ length out.old }
    ensures { Begins (refused_text k) out.old result out.new }
{
    let next = put_named(out, 0, b"refused ", k);
    put_byte(out, next, b'\n')
}

// Line one: frame number, row count and ceiling.
pub(crate) fn put_frame_line(out: &mut [u8], frame: u32, rows: u32, ceiling: i32) -> usize
    requires { 53 ≤ length out.old }
    ensures { (Put 0 (frame_line frame rows ceiling) out.old result out.new) × (result ≤ 53) }
{
    let a = put_named(out, 0, b"frame ", frame);
    let b = put_named(out, a, b" rows ", rows);
    let c = put_named(out, b, b" ceiling ", ceiling);
    put_byte(out, c, b'\n')
}

fn put_rank_and_score(out: &mut [u8], at: usize, rank: u32, score: i32) -> usize
    requires { at + 22 ≤ length out.old }
    ensures { (Put at (decimal rank ++ space ++ signed_decimal score) out.old result out.new) × (result ≤ at + 22) }
{
    let a = put_number(out, at, rank);
    let b = put_byte(out, a, b' ');
    put_number(out, b, score)
}

// The input bits and the code bits, a space before each.
fn put_words(out: &mut [u8], at: usize, input: &[u8], word: &[u8]) -> usize
    requires { at + length input.now + length word.now + 2 ≤ length out.old }
    ensures { (Put at (space ++ bit_text input.now ++ space ++ bit_text word.now) out.old result out.new)
        × (result ≤ at + length input.now + length word.now + 2) }
{
    let a = put_byte(out, at, b' ');
    let b = put_bits(out, a, input);
    let c = put_byte(out, b, b' ');
    put_bits(out, c, word)
}

pub(crate) fn put_row(
    out: &mut [u8],
    at: usize,
    rank: u32,
    score: i32,
    input: &[u8],
    word: &[u8],
) -> usize
    requires { at + length input.now + length word.now + 25 ≤ length out.old }
    ensures { (Put at (row_line rank score input.now word.now) out.old result out.new)
        × (result ≤ at + length input.now + length word.now + 25) }
{
    let a = put_rank_and_score(out, at, rank, score);
    let b = put_words(out, a, input, word);
    put_byte(out, b, b'\n')
}
