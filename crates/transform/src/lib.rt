// The transform of a word of bits and its inverse, in place: Arikan's, or the convolutional one. For the latter the halves of a word at a
// stride are its even and its odd places: two words at twice the stride.
#![tactic(auto)]

mod arikan;
mod base;
mod layer;
mod table;

ghost use Rattle.std.specs.Prelude.{◌≡◌};
ghost use Rattle.spec.specs.Transform.{transform_by, inverse_by};
ghost use Rattle.transform.specs.Strided.{Halved, turned_at};
ghost use Rattle.transform.specs.Word.{Word, turned_by};

use arikan::polarise;

// The convolutional transform, or where INVERSE is true its inverse: length 4 by the table, length 8 by its halves at once, above that by
// calling itself on each half. Of the transform the even places of the result are that of a, the odd ones that of b; of the inverse a is
// that of the even places, b that of the odd ones. Half of the length is h.
fn turn_at<const INVERSE: bool>(s: &mut [u8], m: u32, h: usize, at: usize, d: usize)
    requires { Halved m h at d s.old }
    ensures { s.new ≡ turned_at INVERSE at d m s.old }
{
    if m == 2 {
        base::four::<INVERSE>(s, at, d);
        return;
    }
    if m == 3 {
        base::eight::<INVERSE>(s, at, d);
        return;
    }
    layer::to_halves::<INVERSE>(s, at, d, h);
    turn_at::<INVERSE>(s, m - 1, h / 2, at, 2 * d);
    turn_at::<INVERSE>(s, m - 1, h / 2, at + d, 2 * d);
    layer::from_halves::<INVERSE>(s, at, d, h);
}

// The whole slice is the word; the transform is Arikan's, which is its own inverse, where `arikan` is true.
fn turn_word<const INVERSE: bool>(s: &mut [u8], m: u32, arikan: bool)
    requires { Word m s.old }
    ensures { s.new ≡ turned_by INVERSE arikan m s.old }
{
    let h = s.len() / 2;
    if arikan {
        polarise(s, m, h);
    } else {
        turn_at::<INVERSE>(s, m, h, 0, 1);
    }
}

pub fn transform_word(s: &mut [u8], m: u32, arikan: bool)
    requires { Word m s.old }
    ensures { s.new ≡ transform_by arikan m s.old }
{
    turn_word::<false>(s, m, arikan);
}

pub fn invert_word(s: &mut [u8], m: u32, arikan: bool)
    requires { Word m s.old }
    ensures { s.new ≡ inverse_by arikan m s.old }
{
    turn_word::<true>(s, m, arikan);
}
