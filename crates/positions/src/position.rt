// One position: every live path goes on by a bit or splits in two, the best stay, and the tables follow.
ghost use Rattle.std.specs.Prelude.{◌≡◌, ◌+◌, ◌*◌, ◌≤◌, length, get_or};
ghost use Rattle.spec.specs.Bits.{unpacked};
ghost use Rattle.positions.specs.Position.{Chosen, ChooseFits, Lineage, Settled, SettleFits};
ghost use Rattle.positions.specs.Running.{PositionFits, Standing, Beside, Moves};

use crate::history::note;
use crate::own::own_costs;
use code::flag;
use live::{Live, entry_bit, entry_parent};
use tables::cut::cut_slots;
use tables::top::{top_bits, top_costs};
use tables::walk::advance;

// The best children of the live paths at position i. Where that is frozen, each goes on by its bit of `bits`.
fn choose(
    t: &[u32],
    b: &[u8],
    slots: &[u8],
    map: &[u8],
    bits: &[u8; 32],
    s: Live,
    i: usize,
    l: usize,
    h: usize,
) -> Live
    requires { ChooseFits i l h s.count t.now b.now slots.now map.now }
    ensures { Chosen (get_or (unpacked map.now) i 0) i l h t.now b.now slots.now bits.now s result }
{
    let count = s.count;
    let mut zeros = [0u32; 32];
    let mut ones = [0u32; 32];
    top_costs(t, b, slots, i, count, l, h, &mut zeros, &mut ones);
    if flag(map, i) == 0 {
        return s.clear(&zeros, &ones, l);
    }
    own_costs(&mut zeros, bits, &ones, count);
    s.freeze(bits, &zeros, l)
}

// The parent and the last bit of each of the first count entries.
fn lineage(code: &[u64; 33], count: usize, parents: &mut [u8; 32], bits: &mut [u8; 32])
    requires { (count ≤ 32) × (count ≤ length code.now) × (length parents.old ≡ 32) × (length bits.old ≡ 32) }
    ensures { Lineage count code.now parents.new bits.new }
{
    for r in 0..count {
        parents[r] = entry_parent(code[r]) as u8;
        bits[r] = entry_bit(code[r]);
    }
}

// The history, the slot numbers and the bits at the top follow the first count entries of a list, which were chosen at position i.
fn settle(
    b: &mut [u8],
    slots: &mut [u8],
    code: &[u64; 33],
    count: usize,
    i: usize,
    at: usize,
    deep: usize,
    l: usize,
    h: usize,
)
    requires { SettleFits deep l h at count (length b.old) (length slots.old) × (count ≤ length code.now) }
    ensures { Settled deep l h i at count code.now b.old slots.old b.new slots.new }
{
    note(b, at, code, count);
    let mut parents = [0u8; 32];
    let mut bits = [0u8; 32];
    lineage(code, count, &mut parents, &mut bits);
    cut_slots(slots, &parents, count, deep);
    let k = 3 * h;
    top_bits(&mut b[..k], &bits, i, count, l, h);
}

// Position i for all live paths: the list of the best children, for which the tables, the slot numbers and the history then stand.
pub(crate) fn position(
    t: &mut [u32],
    b: &mut [u8],
    slots: &mut [u8],
    map: &[u8],
    bits: &[u8; 32],
    s: Live,
    i: usize,
    deep: usize,
    l: usize,
    h: usize,
    n: usize,
    arikan: bool,
) -> Live
    requires { PositionFits deep l h n i (3 * h + l * i) (length t.old) (length b.old) (length slots.old) (length map.now) × Standing deep l s slots.old }
    ensures { Standing deep l result slots.new × Beside (3 * h) (3 * h + l * i) l b.old b.new
        × Moves arikan deep l h i map.now bits.now s t.old b.old slots.old result t.new b.new slots.new }
{
    let k = 3 * h;
    let next = choose(t, &b[..k], slots, map, bits, s, i, l, h);
    let count = next.count;
    let code = next.code;
    settle(b, slots, &code, count, i, k + l * i, deep, l, h);
    advance(t, &mut b[..k], slots, i, deep, count, l, h, n, arikan);
    next
}
