// What is written for a record that is decoded: rows of n bits in slices, as a decoder call leaves them.
ghost use Rattle.std.specs.Prelude.{◌+◌, ◌*◌, ◌≤◌, length};
ghost use Rattle.place.specs.Put.{Put, Begins};
ghost use Rattle.row_text.specs.Output.{row_lines, output_of};

use crate::lines::{put_frame_line, put_row};

// A line for each row: at most 25 bytes beside its bits.
fn put_rows(
    out: &mut [u8],
    at: usize,
    rows: u32,
    n: usize,
    inputs: &[u8],
    words: &[u8],
    scores: &[i32],
) -> usize
    requires { (rows * n ≤ length inputs.now) × (rows * n ≤ length words.now) × (rows ≤ length scores.now)
        × (at + rows * (2 * n + 25) ≤ length out.old) }
    ensures { (Put at (row_lines n 0 rows inputs.now words.now scores.now) out.old result out.new)
        × (result ≤ at + rows * (2 * n + 25)) }
{
    let mut next = at;
    let mut from = 0;
    for rank in 0..rows {
        let to = from + n;
        let score = scores[rank as usize];
        next = put_row(out, next, rank, score, &inputs[from..to], &words[from..to]);
        from = to;
    }
    next
}

// Line one, of at most 53 bytes, and a line for each row, at the front of `out`. Returns how many bytes.
pub fn write_rows(
    frame: u32,
    rows: u32,
    ceiling: i32,
    n: usize,
    inputs: &[u8],
    words: &[u8],
    scores: &[i32],
    out: &mut [u8],
) -> usize
    requires { (rows * n ≤ length inputs.now) × (rows * n ≤ length words.now) × (rows ≤ length scores.now)
        × (53 + rows * (2 * n + 25) ≤ length out.old) }
    ensures { Begins (output_of frame rows ceiling n inputs.now words.now scores.now) out.old result out.new }
{
    let next = put_frame_line(out, frame, rows, ceiling);
    put_rows(out, next, rows, n, inputs, words, scores)
}
