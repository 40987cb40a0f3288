// Decodes one record from standard input and prints its rows, or why it is refused.
#![tactic(auto)]

mod output;

use output::write_output;

fn main() {
    // One byte more than the longest input that is read, so that a longer one shows.
    let mut input = [0u8; 4097];
    let n = io::read_full(0, &mut input);
    let mut out = [0u8; 665];
    let count = write_output(&input[..n], &mut out);
    io::write_all(1, &out[..count]);
}
