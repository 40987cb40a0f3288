// Arikan's transform of a word of bits, in place. It is its own inverse.
ghost use Rattle.std.specs.Prelude.{◌≡◌, ◌++◌, ◌+◌, length, take, drop};
ghost use Rattle.spec.specs.Bits.{Bits};
ghost use Rattle.spec.specs.Transform.{added, arikan_transform};
ghost use Rattle.transform.specs.Word.{TwoHalves};

// Four bits a, b, c and d become a + c + b + d, b + d, c + d and d: two layers at once.
fn polarise_four(s: &mut [u8])
    requires { (length s.old ≡ 4) × Bits s.old }
    ensures { s.new ≡ arikan_transform 2 s.old }
{
    let c = s[2];
    let d = s[3];
    let y = s[1] ^ d;
    s[0] = (s[0] ^ c) ^ y;
    s[1] = y;
    s[2] = c ^ d;
}

// The halves v and w become v + w and w.
fn add_halves(s: &mut [u8], h: usize)
    requires { (length s.old ≡ h + h) × Bits s.old }
    ensures { s.new ≡ added (take h s.old) (drop h s.old) ++ drop h s.old }
{
    for i in 0..h {
        let j = h + i;
        s[i] ^= s[j];
    }
}

// Length 4 at once; above that the second half is added to the first, and each half is transformed. Half of the length is h.
pub(crate) fn polarise(s: &mut [u8], m: u32, h: usize)
    requires { TwoHalves m h s.old }
    ensures { s.new ≡ arikan_transform m s.old }
{
    if m == 2 {
        polarise_four(s);
        return;
    }
    add_halves(s, h);
    let (v, w) = s.split_at_mut(h);
    polarise(v, m - 1, h / 2);
    polarise(w, m - 1, h / 2);
}
