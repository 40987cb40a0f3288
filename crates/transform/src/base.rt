// The shortest words: four bits by the table, and eight by their halves of four.
ghost use Rattle.std.specs.Prelude.{◌≡◌, ◌<◌};
ghost use Rattle.spec.specs.Bits.{bits_of, packed};
ghost use Rattle.transform.specs.Strided.{Strided, picked, placed, turned_at};

use crate::{layer, table};

// The number whose bits these are, lowest first.
#[tactic(auto, using(laws::specs::BitLaws::bits_at))]
fn pack(s: &[u8], at: usize, d: usize) -> u8
    requires { Strided 4 at d s.now }
    ensures { (result ≡ packed (picked at d 4 s.now)) × (result < 16) }
{
    let second = at + d;
    let third = at + 2 * d;
    let fourth = at + 3 * d;
    s[at] + 2 * (s[second] + 2 * (s[third] + 2 * s[fourth]))
}

// The bits of x, lowest first.
fn unpack(s: &mut [u8], at: usize, d: usize, x: u8)
    requires { (Strided 4 at d s.old) × (x < 16) }
    ensures { s.new ≡ placed at d (bits_of 4 x) s.old }
{
    s[at] = x % 2;
    s[at + d] = x / 2 % 2;
    s[at + 2 * d] = x / 2 / 2 % 2;
    s[at + 3 * d] = x / 2 / 2 / 2;
}

// The table's entry at the number of the word has the bits of its transform.
pub(crate) fn four<const INVERSE: bool>(s: &mut [u8], at: usize, d: usize)
    requires { Strided 4 at d s.old }
    ensures { s.new ≡ turned_at INVERSE at d 2 s.old }
{
    let x = pack(s, at, d);
    let y = table::turned_entry::<INVERSE>(x);
    unpack(s, at, d, y);
}

pub(crate) fn eight<const INVERSE: bool>(s: &mut [u8], at: usize, d: usize)
    requires { Strided 8 at d s.old }
    ensures { s.new ≡ turned_at INVERSE at d 3 s.old }
{
    layer::to_halves::<INVERSE>(s, at, d, 4);
    four::<INVERSE>(s, at, 2 * d);
    four::<INVERSE>(s, at + d, 2 * d);
    layer::from_halves::<INVERSE>(s, at, d, 4);
}
