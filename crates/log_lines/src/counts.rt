// The first 17 columns of a line that is no refusal.
ghost use Rattle.std.specs.Prelude.{◌≡◌, ◌+◌, ◌<◌, ◌≤◌, length};
ghost use Rattle.place.specs.Put.{Put};
ghost use Rattle.page.specs.Lines.{counts};

use columns::put_number_right;
use place::put_byte;

// A number in 10 columns, a space and a number in 6. Returns the place behind them.
pub(crate) fn put_counts(out: &mut [u8], at: usize, a: u32, b: u32) -> usize
    requires { (b < 1000000) × (at + 17 ≤ length out.old) }
    ensures { (Put at (counts a b) out.old result out.new) × (result ≡ at + 17) }
{
    let first = put_number_right(out, at, 10, a);
    let gap = put_byte(out, first, b' ');
    put_number_right(out, gap, 6, b)
}
