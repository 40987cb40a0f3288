// A reading in steps of 1/64, rounded and held. No float operation here rounds: the product is exact or an infinity and the sum is exact,
// so that the result does not depend on how the machine rounds floats. The rounding is done in whole numbers.
ghost use Rattle.std.specs.Prelude.{◌≡◌, not, ◌*◌, ◌^◌, ◌<◌, ◌≤◌, T};
ghost use Rattle.std.specs.Float.{binary32};
ghost use Rattle.std.specs.Float.Ieee.{is_nan, to_bits};
ghost use Rattle.spec.specs.Samples.{nearest_to, units_of, soft_of};
ghost use Rattle.readings.specs.Product.{held_whole};
ghost use Rattle.readings.specs.Held.{Magnitude, AtMost, Within};

// What is more than 2,047 is held there.
fn at_most(x: f32) -> f32
    requires { Magnitude x }
    ensures { (held_whole (to_bits binary32 result) ≡ held_whole (to_bits binary32 x)) × (AtMost result) }
{
    if x > 2047.0 {
        return 2047.0;
    }
    x
}

// 1/2 for what is less: both go to 0.
fn at_least(x: f32) -> f32
    requires { AtMost x }
    ensures { (held_whole (to_bits binary32 result) ≡ held_whole (to_bits binary32 x)) × (Within result) }
{
    if x < 0.5 {
        return 0.5;
    }
    x
}

// 2^24 times such a magnitude, which is a whole number. Behind the leading 1 of its sum with 2^28, which a float of 64 bits holds
// exactly, stands that number.
fn in_fine_steps(x: f32) -> u64
    requires { Within x }
    ensures { (result * 2 ^ 125 ≡ units_of (to_bits binary32 x)) × (result ≤ 34342961152) }
{
    f64::to_bits(x as f64 + 268435456.0) % 4503599627370496
}

// a / 2^24, rounded to the nearest whole number, halves to the even one: what is added carries into the quotient where the rest is more
// than a half, or is a half and the quotient is odd.
fn nearest(a: u64) -> u32
    requires { a ≤ 34342961152 }
    ensures { (result ≡ nearest_to a (2 ^ 24)) × (result ≤ 2047) }
{
    ((a + 8388607 + a / 16777216 % 2) / 16777216) as u32
}

// The whole number nearest to a magnitude, at most 2,047.
fn whole(x: f32) -> u32
    requires { Magnitude x }
    ensures { (result ≡ held_whole (to_bits binary32 x)) × (result ≤ 2047) }
{
    let y = at_least(at_most(x));
    nearest(in_fine_steps(y))
}

// 64 times a reading, rounded and held: the magnitude is that of the bits under the sign.
pub(crate) fn in_steps(x: f32) -> i16
    requires { T (not (is_nan x)) }
    ensures { result ≡ soft_of (to_bits binary32 x) }
{
    let bits = f32::to_bits(x * 64.0);
    let w = whole(f32::from_bits(bits % 2147483648));
    if bits < 2147483648 {
        return w as i16;
    }
    -(w as i16)
}
