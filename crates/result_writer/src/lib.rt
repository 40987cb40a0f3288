// The writer of result records.
#![tactic(auto)]

mod block;
mod parts;
mod whole;

ghost use Rattle.std.specs.Prelude.{◌≡◌};
ghost use Rattle.spec.specs.Outcome.{writing};
ghost use Rattle.spec.specs.ResultWriter.{result_of, write_result_outcome};
ghost use Rattle.record_writer.specs.Answer.{length_of};

use block::BlockResult;
use refusals::Refusal;

// Writes the record of a result, each optional field left out whose value is the one that absence means, and 0 behind it. A result that is
// refused writes nowhere.
pub fn write_result(
    m: u32,
    rows: u32,
    frame: u32,
    ceiling: i32,
    scores: &[i32],
    inputs: &[u8],
    out: &mut [u8],
) -> Result<u32, Refusal>
    ensures { writing (length_of result) out.new
        ≡ write_result_outcome (result_of m rows frame ceiling scores.now inputs.now) out.old }
{
    let given = BlockResult {
        m,
        rows,
        frame,
        ceiling,
        scores,
        inputs,
    };
    given.write(out)
}
