// The soft values of a record, two bytes each, written into a buffer from a place on.
ghost use Rattle.std.specs.Prelude.{◌≡◌, false, ◌+◌, ◌*◌, ◌≤◌, ◌<◌, length, get_or, pos};
ghost use Rattle.spec.specs.Faults.{some};
ghost use Rattle.spec.specs.Refusals.{out_of_range};
ghost use Rattle.spec.specs.RecordOf.{sixteen_bits, soft_bytes};
ghost use Rattle.spec.specs.Score.{taken};
ghost use Rattle.place.specs.Put.{Put};

use numbers::put_low;
use ranges::taken_at;

// The 16 bits of the soft value of position i, as it is taken, in two's complement.
fn taken_bits(soft: &[i16], i: usize) -> u32
    requires { (i < length soft.now) × (some out_of_range soft.now ≡ false) }
    ensures { result ≡ sixteen_bits (get_or (taken soft.now) i (pos 0)) }
{
    u32::from(taken_at(soft, i).cast_unsigned())
}

// All soft values. Returns the place behind them.
pub(crate) fn put_soft(out: &mut [u8], at: usize, soft: &[i16]) -> usize
    requires { (some out_of_range soft.now ≡ false) × (at + 2 * length soft.now ≤ length out.old) }
    ensures { (Put at (soft_bytes (taken soft.now)) out.old result out.new)
        × (result ≤ at + 2 * length soft.now) }
{
    let mut next = at;
    for i in 0..soft.len() {
        next = put_low(out, next, 2, taken_bits(soft, i));
    }
    next
}
