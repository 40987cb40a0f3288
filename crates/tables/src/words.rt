// The windows of a layer above the bottom, from those of the layer below it.
ghost use Rattle.std.specs.Prelude.{◌≡◌, ◌+◌, ◌*◌, ◌%◌, ◌<◌, ◌≤◌, length, get_or};
ghost use Rattle.windows.specs.Op.{Wrote};
ghost use Rattle.tables.specs.Tab.{slot_start, flat16, plain_f, finish_f, row_f, WroteRows, FitWindows, Slots, Placed};

use windows::kernel::{finish, node};

// Where slot s of a layer of w nodes begins, in nodes.
pub(crate) fn place(w: usize, l: usize, s: usize) -> usize
    requires { (w ≤ 2048) × (l ≤ 32) × (s ≤ 32) }
    ensures { Placed w l s result }
{
    w * (l + s)
}

// What the convolutional operator makes of the children of w nodes, whose windows are at src and their
// odd bits at `odds`, with the nodes' even bits at `evens`, to dst.
fn pass(
    t: &mut [u32],
    b: &[u8],
    src: usize,
    dst: usize,
    w: usize,
    odds: usize,
    evens: usize,
    even: bool,
)
    requires { (16 * (src + 2 * w) ≤ length t.old) × (dst + w ≤ src) × (odds + 2 * w ≤ length b.now)
        × (evens + w ≤ length b.now) }
    ensures { WroteRows (plain_f even src w odds evens b.now t.old)
        (16 * dst) 16 w t.old t.new }
{
    for i in 0..w {
        node(
            t,
            16 * (src + i),
            16 * (src + w + i),
            16 * (dst + i),
            b[odds + i],
            b[odds + w + i],
            b[evens + i],
            even,
        );
    }
}

// The windows of these nodes, with `left` places left of each word. Where the word has room the
// convolutional ones are there already.
fn finish_pass(t: &mut [u32], dst: usize, w: usize, left: usize, arikan: bool)
    requires { 16 * (dst + w) ≤ length t.old }
    ensures { WroteRows (finish_f arikan left dst t.old) (16 * dst) 16 w
        t.old t.new }
{
    if !arikan && 3 < left {
        return;
    }
    for i in 0..w {
        finish(t, 16 * (dst + i), left, arikan);
    }
}

// The windows of path r, whose children's windows are in slot s and their odd bits in slot o.
fn row(
    t: &mut [u32],
    b: &[u8],
    w: usize,
    l: usize,
    h: usize,
    r: usize,
    s: u8,
    o: u8,
    left: usize,
    even: bool,
    arikan: bool,
)
    requires { FitWindows w l h t.old b.now × (r < l) × (s < l) × (o < l) × (left % 2 ≡ 1) }
    ensures { Wrote (flat16 (row_f arikan even left w l h b.now t.old s o r))
        (16 * slot_start w l r) (16 * w) t.old t.new }
{
    let v = 2 * w;
    let src = place(v, l, usize::from(s));
    let odds = 2 * h + place(v, l, usize::from(o));
    let dst = place(w, l, r);
    pass(t, b, src, dst, w, odds, dst, even);
    finish_pass(t, dst, w, left, arikan);
}

// The windows of every live path, path r into slot r. The slot numbers of the layer below are at ws
// and os; its windows are read at an even phase or not; `left` places are left of each node's word.
pub(crate) fn layer(
    t: &mut [u32],
    b: &[u8],
    slots: &[u8],
    ws: usize,
    os: usize,
    count: usize,
    w: usize,
    l: usize,
    h: usize,
    left: usize,
    even: bool,
    arikan: bool,
)
    requires { FitWindows w l h t.old b.now × Slots l count ws slots.now × Slots l count os slots.now
        × (count ≤ l) × (left % 2 ≡ 1) }
    ensures { WroteRows (λ r. flat16 (row_f arikan even left w l h b.now t.old
        (get_or slots.now (ws + r) 0) (get_or slots.now (os + r) 0) r))
        (16 * slot_start w l 0) (16 * w) count t.old t.new }
{
    for r in 0..count {
        row(
            t,
            b,
            w,
            l,
            h,
            r,
            slots[ws + r],
            slots[os + r],
            left,
            even,
            arikan,
        );
    }
}
