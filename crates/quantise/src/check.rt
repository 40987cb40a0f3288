// What a call is refused for.
ghost use Rattle.std.specs.Prelude.{◌≡◌};
ghost use Rattle.spec.specs.Samples.{quantise_refusal};
ghost use Rattle.refusals.specs.Number.{refused};

use code::size;
use refusals::Refusal;

// Refusals 1, 6 and 10: so many bytes of samples, and so many places for soft values.
pub(crate) fn check_samples(m: u32, bytes: usize, softs: usize) -> Result<(), Refusal>
    ensures { refused result ≡ quantise_refusal m bytes softs }
{
    if m < 2 {
        return Err(Refusal::Exponent);
    }
    if m > 10 {
        return Err(Refusal::Exponent);
    }
    let n = size(m);
    let wrong = bytes != 4 * n;
    let short = softs < n;
    if wrong {
        return Err(Refusal::GivenLength);
    }
    if short {
        return Err(Refusal::Room);
    }
    Ok(())
}
