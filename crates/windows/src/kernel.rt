// The cluster: a node's window from its two children's.
ghost use Rattle.std.specs.Prelude.{◌≡◌, ◌+◌, ◌%◌, ◌^◌, ◌≤◌, min, false, [], ◌∷◌, length, slice_index};
ghost use Rattle.windows.specs.Op.{wrap_of, entry, sixteen, rearranged, order_at, flipped, kind_b, tab_at, plain32, source, Wrote};

use crate::ends::ends;
use crate::table::{read, store, window_at};
use crate::window::{Eight, Sixteen, least};

// The lesser of two sums. They wrap, so that nothing is asked of the costs; callers know that they are small.
fn cell(a: u32, b: u32, c: u32, d: u32) -> u32
    ensures { result ≡ min ((a + b) % 2 ^ 32) ((c + d) % 2 ^ 32) }
{
    least(a.wrapping_add(b), c.wrapping_add(d))
}

fn pick(e: u8, a: u32, b: u32) -> u32
    ensures { result ≡ slice_index (a ∷ b ∷ []) (e % 2) }
{
    if e % 2 == 0 { a } else { b }
}

// The window of the first child where the last decided bit e is added to its first bit.
pub(crate) fn flip(a: Eight, e: u8) -> Eight
    ensures { result ≡ flipped (e % 2) a }
{
    Eight {
        c0: pick(e, a.c0, a.c1),
        c1: pick(e, a.c1, a.c0),
        c2: pick(e, a.c2, a.c3),
        c3: pick(e, a.c3, a.c2),
        c4: pick(e, a.c4, a.c5),
        c5: pick(e, a.c5, a.c4),
        c6: pick(e, a.c6, a.c7),
        c7: pick(e, a.c7, a.c6),
    }
}

// The convolutional operator where that bit is 0: of the children's bits a0 a1 a2 and b0 b1 b2 the last
// is free.
fn convolved(a: Eight, b: Eight) -> Sixteen
    ensures { result ≡ sixteen (wrap_of false (entry a) (entry b) 0) }
{
    Sixteen {
        x0: cell(a.c0, b.c0, a.c4, b.c4),
        x1: cell(a.c1, b.c1, a.c5, b.c5),
        x2: cell(a.c3, b.c1, a.c7, b.c5),
        x3: cell(a.c2, b.c0, a.c6, b.c4),
        x4: cell(a.c2, b.c2, a.c6, b.c6),
        x5: cell(a.c3, b.c3, a.c7, b.c7),
        x6: cell(a.c1, b.c3, a.c5, b.c7),
        x7: cell(a.c0, b.c2, a.c4, b.c6),
        x8: cell(a.c6, b.c2, a.c2, b.c6),
        x9: cell(a.c7, b.c3, a.c3, b.c7),
        x10: cell(a.c5, b.c3, a.c1, b.c7),
        x11: cell(a.c4, b.c2, a.c0, b.c6),
        x12: cell(a.c4, b.c0, a.c0, b.c4),
        x13: cell(a.c5, b.c1, a.c1, b.c5),
        x14: cell(a.c7, b.c1, a.c3, b.c5),
        x15: cell(a.c6, b.c0, a.c2, b.c4),
    }
}

// A window in the order of the code's transform: Arikan's operator has the same costs in another one.
fn ordered(s: Sixteen, arikan: bool) -> Sixteen
    ensures { result ≡ rearranged (order_at arikan) s }
{
    if arikan {
        return Sixteen {
            x0: s.x0,
            x1: s.x1,
            x2: s.x3,
            x3: s.x2,
            x4: s.x4,
            x5: s.x5,
            x6: s.x7,
            x7: s.x6,
            x8: s.x12,
            x9: s.x13,
            x10: s.x15,
            x11: s.x14,
            x12: s.x8,
            x13: s.x9,
            x14: s.x11,
            x15: s.x10,
        };
    }
    s
}

// The operator of either transform.
pub(crate) fn combine(a: Eight, b: Eight, arikan: bool) -> Sixteen
    ensures { result ≡ sixteen (wrap_of arikan (entry a) (entry b) 0) }
{
    ordered(convolved(a, b), arikan)
}

fn lift(a: Eight, b: Eight, e: u8) -> Sixteen
    ensures { result ≡ sixteen (wrap_of false (entry (flipped (e % 2) a)) (entry b) 0) }
{
    convolved(flip(a, e), b)
}

// What the convolutional operator makes of a node's children, whose windows are at pa and pb, read at
// an even phase with the odd bits oa and ob; e is the node's last decided bit. The order of the other
// transform and the end of the word are left to `finish`, so that the loop over the nodes, where the
// time goes, has a case for neither.
pub fn node(t: &mut [u32], pa: usize, pb: usize, to: usize, oa: u8, ob: u8, e: u8, even: bool)
    requires { (pa + 16 ≤ length t.old) × (pb + 16 ≤ length t.old) × (to + 16 ≤ length t.old) }
    ensures { Wrote (plain32 (kind_b even) (tab_at t.old pa (oa % 2))
        (tab_at t.old pb (ob % 2)) (e % 2)) to 16 t.old t.new }
{
    let a = read(t, pa, oa, even);
    let b = read(t, pb, ob, even);
    store(t, to, lift(a, b, e));
}

// The window of a node with `left` places left, from what `node` left at `to`.
pub fn finish(t: &mut [u32], to: usize, left: usize, arikan: bool)
    requires { to + 16 ≤ length t.old }
    ensures { Wrote (λ x. slice_index t.old (to + source arikan left x)) to 16
        t.old t.new }
{
    store(t, to, ends(ordered(window_at(t, to), arikan), left));
}
