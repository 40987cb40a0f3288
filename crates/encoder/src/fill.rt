// The input of a payload.
ghost use Rattle.std.specs.Prelude.{Bool, ◌≡◌, ℕ, ◌*◌, ◌^◌, ◌≤◌, length};
ghost use Rattle.spec.specs.Code.{code, clear, input_for};
ghost use Rattle.laws.specs.Accepted.{Ruled};
ghost use Rattle.laws.specs.FrozenMap.{spread};
ghost use Rattle.laws.specs.MapBits.{flags_of};

use code::{flag, frozen_bit, named, run_end};

// The input of a payload where there are no pairs: its bits at the clear positions in rising order, 0 at each frozen one.
fn spread_payload(map: &[u8], payload: &[u8], input: &mut [u8])
    requires { (length input.old ≤ 8 * length map.now)
        × (clear (flags_of (length input.old) map.now) ≡ length payload.now) }
    ensures { input.new ≡ spread (flags_of (length input.old) map.now) payload.now }
{
    let mut j = 0;
    for (i, bit) in input.iter_mut().enumerate() {
        if flag(map, i) == 0 {
            *bit = payload[j];
            j += 1;
        } else {
            *bit = 0;
        }
    }
}

// The input of a payload in the code of as many positions. Each f gets its sum, in rising order, so that the bits before it have theirs by then.
pub fn fill_input(map: &[u8], pairs: &[u8], payload: &[u8], input: &mut [u8])
    requires { (length input.old ≤ 8 * length map.now)
        × (clear (flags_of (length input.old) map.now) ≡ length payload.now)
        × (Ruled (flags_of (length input.old) map.now) pairs.now) }
    ensures { (m : ℕ) (arikan : Bool) → length input.old ≡ 2 ^ m
        → input.new ≡ input_for (code m arikan map.now pairs.now) payload.now }
{
    spread_payload(map, payload, input);
    // Not a `for`: how far a turn goes, from one run of pairs to the next, is in the pairs.
    let mut at = 0;
    while at < pairs.len() {
        let f = named(pairs, at);
        let to = run_end(pairs, at, f);
        input[f] = frozen_bit(pairs, at, to, f, &input[..f]);
        at = to;
    }
}
