// Samples read from their bytes, and the two soft values of each.
ghost use Rattle.std.specs.Prelude.{◌≡◌, ◌+◌, ◌*◌, ◌<◌, ◌≤◌, length, set};
ghost use Rattle.std.specs.Float.{binary32};
ghost use Rattle.std.specs.Float.Ieee.{of_bits, nan_bits};
ghost use Rattle.spec.specs.Record.{four_at};
ghost use Rattle.spec.specs.Samples.{soft_pairs};
ghost use Rattle.readings.specs.Parts.{part_of, soft_part};

use numbers::four;
use readings::quantise_part;

// One sample: its real part and its imaginary part.
#[derive(Drop)]
struct Sample {
    re: f32,
    im: f32,
}

fn is_nan(bits: u32) -> bool
    ensures { result ≡ nan_bits binary32 bits }
{
    bits % 2147483648 > 2139095040
}

// The float of any bits. Those of a NaN are not taken as they are: there is one NaN.
fn float_of(bits: u32) -> f32
    ensures { result ≡ of_bits binary32 bits }
{
    if is_nan(bits) {
        return f32::NAN;
    }
    f32::from_bits(bits)
}

// The sample of eight bytes: low byte first, real part first.
fn sample_of(bytes: &[u8]) -> Sample
    requires { length bytes.now ≡ 8 }
    ensures { (result.re ≡ of_bits binary32 (four_at bytes.now 0)) × (result.im ≡ of_bits binary32 (four_at bytes.now 4))
        × (four_at bytes.now 0 < 4294967296) × (four_at bytes.now 4 < 4294967296) }
{
    let re = float_of(four(bytes, 0));
    let im = float_of(four(bytes, 4));
    Sample { re, im }
}

// The quantiser of one sample: its two soft values, from a place on.
fn quantise_sample(s: Sample, soft: &mut [i16], at: usize)
    requires { at + 1 < length soft.old }
    ensures { soft.new
        ≡ set (set soft.old at (soft_part (part_of s.re))) (at + 1) (soft_part (part_of s.im)) }
{
    soft[at] = quantise_part(s.re);
    soft[at + 1] = quantise_part(s.im);
}

// So many samples, into a slice of twice as many soft values.
pub(crate) fn write_pairs(bytes: &[u8], pairs: usize, soft: &mut [i16])
    requires { (length soft.old ≡ 2 * pairs) × (8 * pairs ≤ length bytes.now) × (pairs ≤ 512) }
    ensures { soft.new ≡ soft_pairs bytes.now 0 pairs }
{
    for j in 0..pairs {
        let from = 8 * j;
        let s = sample_of(&bytes[from..from + 8]);
        quantise_sample(s, soft, 2 * j);
    }
}
