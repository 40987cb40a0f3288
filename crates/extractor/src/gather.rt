// An input taken apart: its bits at the clear positions, and whether one at a frozen position breaks its rule.
ghost use Rattle.std.specs.Prelude.{Bool, ◌||◌, ◌≡◌, ℕ, ◌+◌, ◌*◌, ◌≤◌, length, drop};
ghost use Rattle.spec.specs.Code.{Code, code, clear, gathered, broken_from};
ghost use Rattle.laws.specs.Accepted.{Ruled};
ghost use Rattle.laws.specs.MapBits.{flags_of};
ghost use Rattle.laws.specs.PairRuns.{Unsummed, Run};

use code::{flag, frozen_bit, named, run_end};

// The bits of an input at the clear positions.
pub(crate) fn gather_payload(map: &[u8], input: &[u8], payload: &mut [u8])
    requires { (length input.now ≤ 8 * length map.now)
        × (clear (flags_of (length input.now) map.now) ≡ length payload.old) }
    ensures { payload.new
        ≡ gathered (flags_of (length input.now) map.now) input.now }
{
    let mut j = 0;
    for (i, bit) in input.iter().enumerate() {
        if flag(map, i) == 0 {
            payload[j] = *bit;
            j += 1;
        }
    }
}

// Of the positions from `from` on and before `to`, a frozen one has a bit that is not 0: that breaks its rule where they have no pairs.
fn frozen_bit_set(map: &[u8], input: &[u8], from: usize, to: usize) -> bool
    requires { (length input.now ≤ 8 * length map.now) × (from ≤ to) × (to ≤ length input.now) }
    ensures { (c : Code) → Unsummed from to c.pairs
        → broken_from c input.now from (drop from (flags_of (length input.now) map.now))
        ≡ (result || broken_from c input.now to (drop to (flags_of (length input.now) map.now))) }
{
    for i in from..to {
        if flag(map, i) != 0 && input[i] != 0 {
            return true;
        }
    }
    false
}

// A bit from `from` to f breaks its rule; the pairs of f lie from `at` to `to`, and no position before it has pairs.
fn run_broken(
    map: &[u8],
    pairs: &[u8],
    at: usize,
    to: usize,
    input: &[u8],
    from: usize,
    f: usize,
) -> bool
    requires { (length input.now ≤ 8 * length map.now)
        × (Run (flags_of (length input.now) map.now) from f at to pairs.now) }
    ensures { (m : ℕ) (arikan : Bool) → broken_from (code m arikan map.now pairs.now) input.now from
        (drop from (flags_of (length input.now) map.now))
        ≡ (result || broken_from (code m arikan map.now pairs.now) input.now (f + 1)
        (drop (f + 1) (flags_of (length input.now) map.now))) }
{
    frozen_bit_set(map, input, from, f) || input[f] != frozen_bit(pairs, at, to, f, input)
}

// A frozen bit of an input is not the sum that its rule gives: run by run of the pairs, and behind the last.
pub(crate) fn breaks_rule(map: &[u8], pairs: &[u8], input: &[u8]) -> bool
    requires { (length input.now ≤ 8 * length map.now) × (Ruled (flags_of (length input.now) map.now) pairs.now) }
    ensures { (m : ℕ) (arikan : Bool) → result ≡ broken_from (code m arikan map.now pairs.now) input.now 0
        (flags_of (length input.now) map.now) }
{
    let mut i = 0;
    // Not a `for`: how far a turn goes, from one run of pairs to the next, is in the pairs.
    let mut at = 0;
    while at < pairs.len() {
        let f = named(pairs, at);
        let to = run_end(pairs, at, f);
        if run_broken(map, pairs, at, to, input, i, f) {
            return true;
        }
        i = f + 1;
        at = to;
    }
    frozen_bit_set(map, input, i, input.len())
}
