// The correlations of a word plus each sum of some words, all at once, in bins of 32 bits.
#![tactic(auto)]

mod bins;
mod fold;

ghost use Rattle.std.specs.Prelude.{◌≡◌, ℕ, List, map, length};
ghost use Rattle.spec.specs.Bits.{Bits};
ghost use Rattle.spec.specs.Score.{correlation, taken};
ghost use Rattle.laws.specs.ListCost.{All};
ghost use Rattle.correlations.specs.Fits.{CorrelateFits};
ghost use Rattle.correlations.specs.Folding.{wrapped, columns, spanned};

use bins::bin_positions;
use fold::fold;

// 2 ^ r bins, h the half of them. For any r words whose columns these are, bin x becomes the correlation of `word` plus the sum that the
// bits of x name, modulo 2 ^ 32.
pub fn correlate(bins: &mut [u32], cols: &[u32], word: &[u8], soft: &[i16], r: u32, h: usize)
    requires { CorrelateFits r h bins.old cols.now word.now soft.now }
    ensures { (gs : List (List ℕ)) → length gs ≡ r → All (λ (g : List ℕ). length g ≡ length soft.now) gs → All Bits gs → Bits word.now → cols.now ≡ columns (length soft.now) gs → bins.new ≡ map wrapped (map (correlation (taken soft.now)) (spanned word.now gs)) }
{
    bin_positions(bins, cols, word, soft);
    fold(bins, r, h);
}
