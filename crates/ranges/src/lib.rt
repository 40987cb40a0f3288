// The ranges of what a run of the decoder is asked for: list size, stop position and soft values. Conditions 4 to 7; what a
// soft value is taken as, and its magnitude.
#![tactic(auto)]

ghost use Rattle.std.specs.Prelude.{◌≡◌, false, ◌<◌, length, get_or, pos, nat_abs};
ghost use Rattle.spec.specs.Faults.{first, some};
ghost use Rattle.spec.specs.Score.{saturated, taken};
ghost use Rattle.spec.specs.Refusals.{out_of_range};
ghost use Rattle.refusals.specs.Number.{refused};
ghost use Rattle.ranges.specs.Ranges.{range_faults, soft_faults};

use refusals::Refusal;

// Refusals 4 and 5: list size l and stop position p for n positions.
pub fn check_range(n: usize, l: u32, p: u32) -> Result<(), Refusal>
    ensures { refused result ≡ first (range_faults n l p) }
{
    if l < 1 {
        return Err(Refusal::ListSize);
    }
    if l > 32 {
        return Err(Refusal::ListSize);
    }
    if n < p as usize {
        return Err(Refusal::StopPosition);
    }
    Ok(())
}

// A soft value that is out of range.
pub fn out_of_range(y: i16) -> bool
    ensures { result ≡ out_of_range y }
{
    y < -2048 || y > 2047
}

// A soft value in range, as it is taken. Of these only −2,048 is below −2,047; a bound is what vector instructions have.
pub fn saturated(y: i16) -> i16
    requires { out_of_range y ≡ false }
    ensures { result ≡ saturated y }
{
    y.max(-2047)
}

// The soft value of position i, as it is taken.
pub fn taken_at(soft: &[i16], i: usize) -> i16
    requires { (i < length soft.now) × (some out_of_range soft.now ≡ false) }
    ensures { result ≡ get_or (taken soft.now) i (pos 0) }
{
    saturated(soft[i])
}

// All values are looked at, and none ends the loop: so it runs in vector instructions.
fn some_out_of_range(soft: &[i16]) -> bool
    ensures { result ≡ some out_of_range soft.now }
{
    let mut outside = false;
    for y in soft {
        outside |= out_of_range(*y);
    }
    outside
}

// Refusals 6 and 7: soft values for n positions.
pub fn check_soft(n: usize, soft: &[i16]) -> Result<(), Refusal>
    ensures { refused result ≡ first (soft_faults n soft.now) }
{
    if soft.len() != n {
        return Err(Refusal::GivenLength);
    }
    if some_out_of_range(soft) {
        return Err(Refusal::SoftValue);
    }
    Ok(())
}

// The magnitude of one soft value.
pub fn magnitude_of(y: i16) -> u32
    ensures { result ≡ nat_abs y }
{
    u32::from(y.unsigned_abs())
}
