// The bit of a prefix at a frozen position: the sum of the bits that its pairs name. They stand next to each other, since pairs rise, so
// a loop over the positions, or over the runs of pairs, keeps the place where those of the next one begin.
ghost use Rattle.std.specs.Prelude.{cond, List, ◌≡◌, ℕ, ◌+◌, ◌<◌, eqb, length, drop, get_or};
ghost use Rattle.spec.specs.Bits.{◌⊕◌};
ghost use Rattle.spec.specs.Code.{pairs_in, sum_at};
ghost use Rattle.spec.specs.Record.{two_at};
ghost use Rattle.laws.specs.PairRuns.{Part, Reached, RunEnds};

use crate::pairs::named;

// The place where the pairs of position i end, which begin at `from` if there are any.
pub fn run_end(pairs: &[u8], from: usize, i: usize) -> usize
    requires { Part from from pairs.now }
    ensures { Part from result pairs.now
        × ((flags : List ℕ) → Reached flags i from pairs.now → RunEnds flags i result pairs.now) }
{
    for k in from / 4..pairs.len() / 4 {
        if named(pairs, 4 * k) != i {
            return 4 * k;
        }
    }
    pairs.len()
}

fn plus(a: u8, b: u8) -> u8
    ensures { result ≡ a ⊕ b }
{
    if b == 0 {
        return a;
    }
    if a == 0 {
        return 1;
    }
    0
}

// 0 past the end.
fn bit_at(w: &[u8], e: usize) -> u8
    ensures { result ≡ get_or w.now e 0 }
{
    w.get(e).copied().unwrap_or(0)
}

// The sum with the bit of the pair that begins at `at`, if that is one of position i.
fn add_pair(pairs: &[u8], at: usize, i: usize, w: &[u8], sum: u8) -> u8
    requires { at + 3 < length pairs.now }
    ensures { result ≡ cond (eqb (two_at pairs.now at) i) (get_or w.now (two_at pairs.now (at + 2)) 0 ⊕ sum) sum }
{
    let f = named(pairs, at);
    if f != i {
        return sum;
    }
    let e = named(pairs, at + 2);
    let bit = bit_at(w, e);
    plus(bit, sum)
}

// The bit at the frozen position i of an input that begins with w: the pairs of i lie from `from` to `to`.
pub fn frozen_bit(pairs: &[u8], from: usize, to: usize, i: usize, w: &[u8]) -> u8
    requires { Part from to pairs.now }
    ensures { sum_at (pairs_in (drop to pairs.now)) i w.now ≡ 0
        → result ≡ sum_at (pairs_in (drop from pairs.now)) i w.now }
{
    let mut sum: u8 = 0;
    for k in (from / 4..to / 4).rev() {
        sum = add_pair(pairs, 4 * k, i, w, sum);
    }
    sum
}
