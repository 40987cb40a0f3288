// The rows of a decoded block, printed.
ghost use Rattle.std.specs.Prelude.{◌<◌};

use crate::print::{print_bits, print_byte, print_signed};

fn print_row(rank: usize, score: i32, input: &[u8], word: &[u8]) {
    io::print_decimal(1, rank as u64);
    print_byte(b' ');
    print_signed(score);
    print_bits(input);
    print_bits(word);
    print_byte(b'\n');
}

// A line for each row, of n bits.
pub(crate) fn print_rows(rows: usize, n: usize, inputs: &[u8], words: &[u8], scores: &[i32])
    requires { 0 < n }
{
    let bits = inputs.chunks_exact(n).zip(words.chunks_exact(n));
    for (rank, (score, (input, word))) in scores.iter().take(rows).zip(bits).enumerate() {
        print_row(rank, *score, input, word);
    }
}
