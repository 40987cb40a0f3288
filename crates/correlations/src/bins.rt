// The soft values of a word, negated where it has 1, added up in the bins that their columns name. Numbers are modulo 2 ^ 32.
ghost use Rattle.std.specs.Prelude.{◌≡◌, ℕ, ◌<◌, false, map, length, replicate, ℤ, pos, ◌+ℤ◌};
ghost use Rattle.spec.specs.Faults.{some};
ghost use Rattle.spec.specs.Refusals.{out_of_range};
ghost use Rattle.spec.specs.Score.{signed, taken};
ghost use Rattle.laws.specs.ListCost.{All};
ghost use Rattle.correlations.specs.Folding.{wrapped, binned, signed_by};

use ranges::taken_at;

// x and the soft value y, negated where the bit b is 1.
fn add_signed(x: u32, y: i16, b: u8) -> u32
    ensures { (z : ℤ) → x ≡ wrapped z → result ≡ wrapped (z +ℤ signed y b) }
{
    let y = i32::from(y);
    let signed = if b == 0 { y } else { -y };
    x.wrapping_add_signed(signed)
}

// Every bin is set; column i is that of position i.
pub(crate) fn bin_positions(bins: &mut [u32], cols: &[u32], word: &[u8], soft: &[i16])
    requires { (length word.now ≡ length soft.now) × (length cols.now ≡ length soft.now) × (All (λ (c : ℕ). c < length bins.old) cols.now) × (some out_of_range soft.now ≡ false) }
    ensures { bins.new ≡ map wrapped (binned cols.now (signed_by (taken soft.now) word.now) (replicate (length bins.old) (pos 0))) }
{
    bins.fill(0);
    for i in 0..soft.len() {
        let c = cols[i] as usize;
        bins[c] = add_signed(bins[c], taken_at(soft, i), word[i]);
    }
}
