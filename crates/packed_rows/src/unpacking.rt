// Bits from packed bytes.
ghost use Rattle.std.specs.Prelude.{◌≡◌, ◌+◌, ◌≤◌, length};
ghost use Rattle.spec.specs.Bits.{bits_of};
ghost use Rattle.spec.specs.ResultRecord.{some_past};
ghost use Rattle.place.specs.Put.{Put};
ghost use Rattle.laws.specs.PackedRows.{bits_of_each};

use place::put_byte;

// The w low bits of x from a place on. Returns the place behind them.
fn put_bits(out: &mut [u8], at: usize, w: usize, x: u8) -> usize
    requires { at + w ≤ length out.old }
    ensures { (Put at (bits_of w x) out.old result out.new) × (result ≡ at + w) }
{
    let mut next = at;
    let mut rest = x;
    for _ in 0..w {
        next = put_byte(out, next, rest % 2);
        rest /= 2;
    }
    next
}

// The w low bits of each byte, at the front of `out`. Returns how many there are.
pub fn put_unpacked(out: &mut [u8], packed: &[u8], w: usize) -> usize
    requires { length (bits_of_each w packed.now) ≤ length out.old }
    ensures { (Put 0 (bits_of_each w packed.now) out.old result out.new) × (result ≤ length out.old) }
{
    let mut next = 0;
    for x in packed {
        next = put_bits(out, next, w, *x);
    }
    next
}

// Rows of four bits in a byte each: one has a bit set past the fourth.
pub fn some_high(packed: &[u8]) -> bool
    ensures { result ≡ some_past 4 (length packed.now) packed.now }
{
    packed.iter().any(|x| *x > 15)
}
