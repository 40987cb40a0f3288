// What a test load is refused for.
ghost use Rattle.std.specs.Prelude.{◌≡◌};
ghost use Rattle.spec.specs.TestLoad.{load_refusal};
ghost use Rattle.refusals.specs.Number.{refused};
ghost use Rattle.code.specs.Codes.{code_of};

use code::{Code, size};
use job_writer::record_length;
use refusals::Refusal;

// Refusals 1, 2, 3, 15, 24 and 10: the outputs have `records` and `payloads` bytes.
pub(crate) fn check_load(
    s: u32,
    code: Code<'_>,
    frame: u32,
    records: usize,
    payloads: usize,
) -> Result<(), Refusal>
    ensures { refused result ≡ load_refusal s (code_of code.entry) frame records payloads }
{
    code.check()?;
    let n = size(code.m) as u32;
    let need = record_length(code, 4, n, frame);
    let k = code.payload_size();
    if s == 0 {
        return Err(Refusal::State);
    }
    if records < need {
        return Err(Refusal::Room);
    }
    if payloads < k {
        return Err(Refusal::Room);
    }
    Ok(())
}
