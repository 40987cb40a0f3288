// A payload or a word must be of one length and hold bits.
ghost use Rattle.std.specs.Prelude.{◌≡◌, ltb};
ghost use Rattle.spec.specs.Faults.{first, some};
ghost use Rattle.code.specs.Given.{bit_faults};
ghost use Rattle.refusals.specs.Number.{refused};

use refusals::Refusal;

// A byte above 1. All are looked at, and none ends the loop: so it runs in vector instructions.
fn above_one(s: &[u8]) -> bool
    ensures { result ≡ some (ltb 1) s.now }
{
    let mut above = false;
    for x in s {
        above |= *x > 1;
    }
    above
}

// The same of a long slice, 64 bytes at a time: behind those that have one nothing is looked at.
fn above_one_soon(s: &[u8]) -> bool
    ensures { result ≡ some (ltb 1) s.now }
{
    let mut rest = s;
    for _ in 0..s.len() / 64 {
        let (first, behind) = rest.split_at(64);
        if above_one(first) {
            return true;
        }
        rest = behind;
    }
    above_one(rest)
}

// Refusals 6 and 11: s must be n bits.
pub fn check_bits(n: usize, s: &[u8]) -> Result<(), Refusal>
    ensures { refused result ≡ first (bit_faults n s.now) }
{
    if s.len() != n {
        return Err(Refusal::GivenLength);
    }
    if above_one_soon(s) {
        return Err(Refusal::NotBits);
    }
    Ok(())
}
