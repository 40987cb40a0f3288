// The bits by which the live paths go on at a frozen position: each path's sum of its own earlier bits, where a pair stands at the
// position. The prefixes of the live paths are kept as rows behind the history, from one such position to the next.
ghost use Rattle.std.specs.Prelude.{◌≡◌, ◌+◌, ◌*◌, ◌%◌, ◌≤◌, ◌<◌, length, get_or, replicate};
ghost use Rattle.laws.specs.PairRuns.{Part};
ghost use Rattle.windows.specs.Op.{Wrote};
ghost use Rattle.positions.specs.Own.{by_bit, Over, own_sum, OwnFits, Renewed, Owned};

use code::frozen_bit;
use rows::renew::renew_rows;
use slices::copy;

// The rows that are kept: the prefixes of the first `held` ranks after `seen` positions.
#[derive(Drop)]
pub(crate) struct Kept {
    pub(crate) seen: usize,
    pub(crate) held: usize,
}

// The prefixes of the first count paths after i positions take the place of the rows that are kept, and are in `rows` too.
fn renew(
    b: &mut [u8],
    rows: &mut [u8],
    i: usize,
    kept: Kept,
    l: usize,
    h: usize,
    n: usize,
    count: usize,
)
    requires { OwnFits l h n i kept.seen kept.held (3 * h + l * i) (length b.old) (length rows.old) × (count ≤ l) }
    ensures { Renewed l h n i kept.seen kept.held count b.old b.new rows.new }
{
    let k = 3 * h;
    let notes = l * n;
    let bytes = n * count;
    renew_rows(
        rows,
        &b[k..],
        l,
        n,
        kept.seen,
        kept.held,
        i,
        l * i,
        notes,
        count,
    );
    let from = k + notes;
    copy(&rows[..bytes], &mut b[from..from + bytes]);
}

// The sums of the first count paths at position i, whose prefixes are in rows of n bytes; the pairs of i lie from `from` to `to`.
fn sum_rows(
    rows: &[u8],
    pairs: &[u8],
    from: usize,
    to: usize,
    i: usize,
    n: usize,
    count: usize,
    bits: &mut [u8; 32],
)
    requires { Part from to pairs.now × (count ≤ 32) × (i ≤ n) × (n ≤ 1024) × (n * count ≤ length rows.now) × (length bits.old ≡ 32) }
    ensures { Over to i pairs.now → Wrote (own_sum from i n pairs.now rows.now) 0 count bits.old bits.new }
{
    for r in 0..count {
        let at = n * r;
        bits[r] = frozen_bit(pairs, from, to, i, &rows[at..at + i]);
    }
}

// The bits of the first count paths at position i, and the rows that are then kept. Where no pair stands at i nothing is read back, and
// `bits` stays as it is lent, 0.
pub(crate) fn own_bits(
    b: &mut [u8],
    rows: &mut [u8],
    pairs: &[u8],
    from: usize,
    to: usize,
    i: usize,
    kept: Kept,
    l: usize,
    h: usize,
    n: usize,
    count: usize,
    bits: &mut [u8; 32],
) -> Kept
    requires { OwnFits l h n i kept.seen kept.held (3 * h + l * i) (length b.old) (length rows.old) × Part from to pairs.now × (count ≤ l) × (bits.old ≡ replicate 32 0) }
    ensures { Owned l h n i from to kept.seen kept.held count result.seen result.held pairs.now b.old b.new bits.new }
{
    if from == to {
        return kept;
    }
    renew(b, rows, i, kept, l, h, n, count);
    sum_rows(rows, pairs, from, to, i, n, count, bits);
    Kept {
        seen: i,
        held: count,
    }
}

fn pick(b: u8, zero: u32, one: u32) -> u32
    ensures { result ≡ by_bit (b % 2) zero one }
{
    if b % 2 == 0 { zero } else { one }
}

// The costs of the first count paths by their bits: `costs` has them with 0, and gets those with 1 where the bit is 1.
pub(crate) fn own_costs(costs: &mut [u32; 32], bits: &[u8; 32], ones: &[u32; 32], count: usize)
    requires { (count ≤ 32) × (length costs.old ≡ 32) }
    ensures { Wrote (λ k. by_bit (get_or bits.now k 0 % 2) (get_or costs.old k 0) (get_or ones.now k 0))
        0 count costs.old costs.new }
{
    for r in 0..count {
        costs[r] = pick(bits[r], costs[r], ones[r]);
    }
}
