// The bits of the nodes. Bytes are taken modulo 2, so that nothing is asked of them.
ghost use Rattle.std.specs.Prelude.{◌≡◌, ◌⊎◌, ◌+◌, ◌*◌, ◌%◌, ◌<◌, ◌≤◌, length, get_or};
ghost use Rattle.laws.specs.Places.{carry};
ghost use Rattle.windows.specs.Op.{Wrote};
ghost use Rattle.tables.specs.Tab.{slot_start, WroteRows, Slots, Apart, mix, pair_f, push_f, sum_f, FitBits};

use crate::words::place;

// What an even bit adds to the children's bits: nothing in Arikan's transform.
fn carried(x: u8, arikan: bool) -> u8
    ensures { (result ≡ carry arikan (x % 2)) × (result < 2) }
{
    if arikan { 0 } else { x % 2 }
}

// The sums of the w bits at p and at q, to the w bytes at `to`; in Arikan's transform the bits at
// p alone.
#[tactic(auto, using(crate::proofs::Sums::blend_more))]
fn blend(b: &mut [u8], p: usize, q: usize, to: usize, w: usize, arikan: bool)
    requires { (p + w ≤ length b.old) × (q + w ≤ length b.old) × (to + w ≤ length b.old)
        × Apart p w to w × Apart q w to w }
    ensures { Wrote (mix arikan b.old p q) to w b.old b.new }
{
    for i in 0..w {
        b[to + i] = (b[p + i] % 2 + carried(b[q + i], arikan)) % 2;
    }
}

// The new bits of the children of w nodes: the sums at p, and behind them the odd bits at q, each
// with the new even bit at e.
fn pair(b: &mut [u8], p: usize, q: usize, e: usize, to: usize, w: usize, arikan: bool)
    requires { (p + w ≤ length b.old) × (q + w ≤ length b.old) × (e + w ≤ length b.old)
        × (to + 2 * w ≤ length b.old) × Apart p w to (2 * w) × Apart q w to (2 * w) × Apart e w to (2 * w) }
    ensures { Wrote (pair_f arikan b.old p q e w) to (2 * w) b.old b.new }
{
    blend(b, p, e, to, w, arikan);
    blend(b, q, e, to + w, w, arikan);
}

// Of path r, to their even bits (f = 0) or their odd ones (f = 2 h).
fn push_row(b: &mut [u8], w: usize, l: usize, h: usize, f: usize, r: usize, o: u8, arikan: bool)
    requires { FitBits (2 * w) l h b.old × (r < l) × (o < l) × ((f ≡ 0) ⊎ (f ≡ 2 * h)) }
    ensures { Wrote (push_f arikan w l h b.old o r) (f + slot_start (2 * w) l r) (2 * w)
        b.old b.new }
{
    let from = place(w, l, usize::from(o));
    let e = place(w, l, r);
    let to = f + place(2 * w, l, r);
    pair(b, h + from, 2 * h + from, e, to, w, arikan);
}

// Of every live path, path r into slot r.
pub(crate) fn push(
    b: &mut [u8],
    slots: &[u8],
    os: usize,
    count: usize,
    w: usize,
    l: usize,
    h: usize,
    f: usize,
    arikan: bool,
)
    requires { FitBits (2 * w) l h b.old × Slots l count os slots.now × (count ≤ l)
        × ((f ≡ 0) ⊎ (f ≡ 2 * h)) }
    ensures { WroteRows (λ r. push_f arikan w l h b.old (get_or slots.now (os + r) 0) r)
        (f + slot_start (2 * w) l 0) (2 * w) count b.old b.new }
{
    for r in 0..count {
        push_row(b, w, l, h, f, r, slots[os + r], arikan);
    }
}

// The sums of path r: its even bits are in slot s, its new odd bits in slot r.
fn sum_row(b: &mut [u8], w: usize, l: usize, h: usize, r: usize, s: u8)
    requires { FitBits w l h b.old × (r < l) × (s < l) }
    ensures { Wrote (sum_f w l h b.old s r) (h + slot_start w l r) w
        b.old b.new }
{
    let from = place(w, l, usize::from(s));
    let at = place(w, l, r);
    blend(b, from, 2 * h + at, h + at, w, false);
}

// Of every live path, path r into slot r.
pub(crate) fn sums(
    b: &mut [u8],
    slots: &[u8],
    ws: usize,
    count: usize,
    w: usize,
    l: usize,
    h: usize,
)
    requires { FitBits w l h b.old × Slots l count ws slots.now × (count ≤ l) }
    ensures { WroteRows (λ r. sum_f w l h b.old (get_or slots.now (ws + r) 0) r)
        (h + slot_start w l 0) w count b.old b.new }
{
    for r in 0..count {
        sum_row(b, w, l, h, r, slots[ws + r]);
    }
}
