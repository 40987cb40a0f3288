// Whole lines. Each function returns the place behind its line, which is 44 further.
ghost use Rattle.std.specs.Prelude.{◌≡◌, ◌+◌, ◌<◌, ◌≤◌, false, length};
ghost use Rattle.spec.specs.ResultRecord.{rising};
ghost use Rattle.place.specs.Put.{Put};
ghost use Rattle.page.specs.Lines.{result_line, refused_line, last_line};

use crate::counts::put_counts;
use crate::scores::{put_lead, put_number};
use columns::put_spaces;
use place::put_byte;
use text::put_named;

// The line of a record that was read: frame number, row count, first score, and its difference to the second.
pub fn put_result(out: &mut [u8], at: usize, frame: u32, rows: u32, scores: &[i32]) -> usize
    requires { (rows < 1000000) × (1 ≤ length scores.now) × (rising scores.now ≡ false) × (at + 44 ≤ length out.old) }
    ensures { (Put at (result_line frame rows scores.now) out.old result out.new) × (result ≡ at + 44) }
{
    let a = put_counts(out, at, frame, rows);
    let b = put_number(out, a, scores[0]);
    let c = put_lead(out, b, scores);
    put_byte(out, c, b'\n')
}

// The line of one that was refused.
pub fn put_refused(out: &mut [u8], at: usize, k: u32) -> usize
    requires { at + 44 ≤ length out.old }
    ensures { (Put at (refused_line k) out.old result out.new) × (result ≡ at + 44) }
{
    let a = put_named(out, at, b"refused ", k);
    let b = put_spaces(out, a, at + 43 - a);
    put_byte(out, b, b'\n')
}

// The last line: how many records, and how many rows they had.
pub fn put_last(out: &mut [u8], at: usize, records: u32, rows: u32) -> usize
    requires { (rows < 1000000) × (at + 44 ≤ length out.old) }
    ensures { (Put at (last_line records rows) out.old result out.new) × (result ≡ at + 44) }
{
    let a = put_counts(out, at, records, rows);
    let b = put_spaces(out, a, 26);
    put_byte(out, b, b'\n')
}
