// The writer of job records.
#![tactic(auto)]

mod whole;

ghost use Rattle.std.specs.Prelude.{◌≡◌};
ghost use Rattle.spec.specs.Outcome.{writing};
ghost use Rattle.spec.specs.JobWriter.{fields_of, write_outcome};
ghost use Rattle.code.specs.Codes.{code_of};
ghost use Rattle.record_writer.specs.Answer.{length_of};

use code::Code;
use decode_refusals::check_block;
use refusals::Refusal;
use slices::fill_from;
pub use whole::{record_length, write_record};

// Writes the record of a job, each optional field left out whose value is the one that absence means, and 0 behind it. A call that is
// refused writes nowhere.
pub fn write_job(
    code: Code,
    l: u32,
    p: u32,
    frame: u32,
    soft: &[i16],
    out: &mut [u8],
) -> Result<u32, Refusal>
    ensures { writing (length_of result) out.new ≡ write_outcome (fields_of (code_of code.entry) l p frame soft.now) out.old }
{
    check_block(code, l, p, soft)?;
    let k = record_length(code, l, p, frame);
    if out.len() < k {
        return Err(Refusal::Room);
    }
    write_record(code, l, p, frame, soft, out);
    fill_from(out, k, 0);
    Ok(k as u32)
}
