// The pairs of a code, four bytes each, and refusal 15.
ghost use Rattle.std.specs.Prelude.{cond, ◌≡◌, ◌+◌, ◌-◌, ◌*◌, ◌%◌, ◌≤◌, ◌<◌, length};
ghost use Rattle.spec.specs.Code.{pair, pairs_in};
ghost use Rattle.spec.specs.Faults.{first, some};
ghost use Rattle.spec.specs.Record.{two_at};
ghost use Rattle.spec.specs.Refusals.{wrong_pair, before, not_rising, pair_faults};
ghost use Rattle.laws.specs.MapBits.{flags_of};

use crate::flags::flag;
use numbers::two;

// The position that a place of a pair names.
pub fn named(pairs: &[u8], at: usize) -> usize
    requires { at + 1 < length pairs.now }
    ensures { (result ≡ two_at pairs.now at) × (result < 65536) }
{
    two(pairs, at) as usize
}

// f is not frozen, or e is not below f; a position at or past n is not frozen.
fn wrong_pair(n: usize, map: &[u8], f: usize, e: usize) -> bool
    requires { n ≤ 8 * length map.now }
    ensures { result ≡ wrong_pair (flags_of n map.now) (pair f e) }
{
    if f >= n {
        return true;
    }
    if flag(map, f) == 0 {
        return true;
    }
    f <= e
}

fn some_wrong(n: usize, map: &[u8], pairs: &[u8]) -> bool
    requires { (n ≤ 8 * length map.now) × (length pairs.now % 4 ≡ 0) }
    ensures { result ≡ some (wrong_pair (flags_of n map.now)) (pairs_in pairs.now) }
{
    for i in 0..pairs.len() / 4 {
        let f = named(pairs, 4 * i);
        let e = named(pairs, 4 * i + 2);
        if wrong_pair(n, map, f, e) {
            return true;
        }
    }
    false
}

// The pair that begins at `at - 4` comes before the one that begins at `at`: by f, then by e.
fn rises(pairs: &[u8], at: usize) -> bool
    requires { (4 ≤ at) × (at + 3 < length pairs.now) }
    ensures { result ≡ before (pair (two_at pairs.now (at - 4)) (two_at pairs.now (at - 2)))
        (pair (two_at pairs.now at) (two_at pairs.now (at + 2))) }
{
    let one = (named(pairs, at - 4), named(pairs, at - 2));
    let next = (named(pairs, at), named(pairs, at + 2));
    one < next
}

fn not_rising(pairs: &[u8]) -> bool
    requires { length pairs.now % 4 ≡ 0 }
    ensures { result ≡ not_rising (pairs_in pairs.now) }
{
    for i in 1..pairs.len() / 4 {
        if !rises(pairs, 4 * i) {
            return true;
        }
    }
    false
}

// Whether 15 applies. With no pairs at all nothing is looked at.
pub(crate) fn pairs_refused(n: usize, map: &[u8], pairs: &[u8]) -> bool
    requires { n ≤ 8 * length map.now }
    ensures { first (pair_faults (flags_of n map.now) pairs.now) ≡ cond result 15 0 }
{
    if pairs.len() == 0 {
        return false;
    }
    if pairs.len() % 4 != 0 {
        return true;
    }
    if pairs.len() / 4 > 256 {
        return true;
    }
    if some_wrong(n, map, pairs) {
        return true;
    }
    not_rising(pairs)
}
