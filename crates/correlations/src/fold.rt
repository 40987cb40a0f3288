// Bins folded in place: each half becomes the sums or the differences of the two halves, and is folded. Numbers are modulo 2 ^ 32.
ghost use Rattle.std.specs.Prelude.{◌≡◌, ◌+◌, ◌/◌, ◌^◌, List, map, length, ℤ};
ghost use Rattle.correlations.specs.Folding.{wrapped, crossed, folded};

// The halves v and w become v + w and v - w.
fn cross_halves(s: &mut [u32], h: usize)
    requires { length s.old ≡ h + h }
    ensures { (zs : List ℤ) → s.old ≡ map wrapped zs → s.new ≡ map wrapped (crossed h zs) }
{
    for i in 0..h {
        let j = h + i;
        let x = s[i];
        let y = s[j];
        s[i] = x.wrapping_add(y);
        s[j] = x.wrapping_sub(y);
    }
}

// Four bins at once: two layers.
fn fold_four(s: &mut [u32])
    requires { length s.old ≡ 4 }
    ensures { (zs : List ℤ) → s.old ≡ map wrapped zs → s.new ≡ map wrapped (folded 2 zs) }
{
    let x = s[0];
    let y = s[1];
    let z = s[2];
    let w = s[3];
    let a = x.wrapping_add(z);
    let b = y.wrapping_add(w);
    let c = x.wrapping_sub(z);
    let d = y.wrapping_sub(w);
    s[0] = a.wrapping_add(b);
    s[1] = a.wrapping_sub(b);
    s[2] = c.wrapping_add(d);
    s[3] = c.wrapping_sub(d);
}

// 2 ^ r bins; half of them is h.
pub(crate) fn fold(s: &mut [u32], r: u32, h: usize)
    requires { (length s.old ≡ 2 ^ r) × (h ≡ 2 ^ r / 2) }
    ensures { (zs : List ℤ) → s.old ≡ map wrapped zs → s.new ≡ map wrapped (folded r zs) }
{
    if r == 0 {
        return;
    }
    if r == 2 {
        fold_four(s);
        return;
    }
    cross_halves(s, h);
    let (v, w) = s.split_at_mut(h);
    fold(v, r - 1, h / 2);
    fold(w, r - 1, h / 2);
}
