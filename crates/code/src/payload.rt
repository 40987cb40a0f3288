// k, the number of clear positions: the ones of the map are counted and taken off n.
ghost use Rattle.std.specs.Prelude.{Bool, false, List, ◌≡◌, ℕ, ◌+◌, ◌*◌, ◌^◌, ◌≤◌, length};
ghost use Rattle.std.specs.Int.Count.{ones};
ghost use Rattle.spec.specs.Bits.{unpacked};
ghost use Rattle.spec.specs.Code.{code, map_bytes, clear, payload_size};
ghost use Rattle.spec.specs.Refusals.{past_end};

use crate::shape::size;

fn ones_of(x: u8) -> usize
    ensures { (result ≡ ones x) × (result ≤ 8) }
{
    x.count_ones() as usize
}

// The ones of all bytes of the map: with its clear bits they make up all its bits.
fn count_frozen(map: &[u8]) -> usize
    requires { length map.now ≤ 128 }
    ensures { result + clear (unpacked map.now) ≡ 8 * length map.now }
{
    let mut k = 0;
    for x in map {
        k += ones_of(*x);
    }
    k
}

// k, whatever the transform and the pairs are.
pub(crate) fn payload_size(m: u32, map: &[u8]) -> usize
    requires { (m ≤ 10) × (length map.now ≡ map_bytes (2 ^ m)) × (past_end (2 ^ m) map.now ≡ false) }
    ensures { (arikan : Bool) (pairs : List ℕ) → result ≡ payload_size (code m arikan map.now pairs) }
{
    let n = size(m);
    let frozen = count_frozen(map);
    n - frozen
}
