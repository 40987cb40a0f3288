// The quantiser: soft values from a demodulator's complex samples.
#![tactic(auto)]

mod check;
mod samples;

ghost use Rattle.std.specs.Prelude.{◌≡◌};
ghost use Rattle.spec.specs.Samples.{quantised, quantise_outcome};
ghost use Rattle.refusals.specs.Number.{refused};

use check::check_samples;
use code::size;
use refusals::Refusal;
use samples::write_pairs;
use slices::fill_from;

// The soft values of the samples in `soft` and 0 behind them. A refused call writes nowhere.
pub fn quantise(m: u32, samples: &[u8], soft: &mut [i16]) -> Result<(), Refusal>
    ensures { quantised (refused result) soft.new ≡ quantise_outcome m samples.now soft.old }
{
    check_samples(m, samples.len(), soft.len())?;
    let n = size(m);
    write_pairs(samples, n / 2, &mut soft[..n]);
    fill_from(soft, n, 0);
    Ok(())
}
