// The last 26 columns of a record's line, 13 for each of two numbers. Each function returns the place behind what it wrote.
ghost use Rattle.std.specs.Prelude.{◌≡◌, ◌+◌, ◌≤◌, false, [], ◌∷◌, ◌++◌, length, pos, ◌-ℤ◌, int_lt};
ghost use Rattle.spec.specs.ResultRecord.{rising};
ghost use Rattle.text.specs.Words.{space};
ghost use Rattle.place.specs.Put.{Put};
ghost use Rattle.columns.specs.Columns.{right};
ghost use Rattle.page.specs.Lines.{lead};

use columns::{put_number_right, put_right};
use itoa::Integer;
use numbers::thirty_two_bits;
use place::put_byte;

// A space and a number in 12 columns.
pub(crate) fn put_number<I: Integer>(out: &mut [u8], at: usize, x: I) -> usize
    requires { (length (I.text x) ≤ 12) × (at + 13 ≤ length out.old) }
    ensures { (Put at (space ++ right 12 (I.text x)) out.old result out.new) × (result ≡ at + 13) }
{
    let gap = put_byte(out, at, b' ');
    put_number_right(out, gap, 12, x)
}

// The difference of two scores that do not rise. It can take all 32 bits.
fn minus(y: i32, z: i32) -> u32
    requires { int_lt y z ≡ false }
    ensures { (y -ℤ z) ≡ pos result }
{
    thirty_two_bits(y).wrapping_sub(thirty_two_bits(z))
}

// A space and `-` in 12 columns.
fn put_none(out: &mut [u8], at: usize) -> usize
    requires { at + 13 ≤ length out.old }
    ensures { (Put at (space ++ right 12 (45 ∷ [])) out.old result out.new) × (result ≡ at + 13) }
{
    let gap = put_byte(out, at, b' ');
    put_right(out, gap, 12, b"-")
}

// A space and the difference of the first two scores, which do not rise, or `-` where there is one, in 12 columns.
pub(crate) fn put_lead(out: &mut [u8], at: usize, scores: &[i32]) -> usize
    requires { (rising scores.now ≡ false) × (at + 13 ≤ length out.old) }
    ensures { (Put at (space ++ right 12 (lead scores.now)) out.old result out.new) × (result ≡ at + 13) }
{
    if scores.len() < 2 {
        return put_none(out, at);
    }
    put_number(out, at, minus(scores[0], scores[1]))
}
