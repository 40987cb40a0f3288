// The two readers of result records: the customer's, and the operator's, who is told nothing of the packed rows.
#![tactic(auto)]

mod host;
mod outputs;

ghost use Rattle.std.specs.Prelude.{◌≡◌};
ghost use Rattle.spec.specs.ResultRecord.{said_by, operator_reading, operator_outcome, customer_reading, customer_outcome};
ghost use Rattle.result.specs.Answer.{answer_of};

pub use host::ResultFields;
use outputs::{write_inputs, write_scores};
use refusals::Refusal;
use result_fields::ResultRecord;
use result_refusals::{check_customer, check_operator, locate};

// What a reader tells of a record beside its scores and rows.
#[derive(Clone, Copy, Debug, PartialEq, Eq)]
pub struct ResultHead {
    pub m: u32,
    pub rows: u32,
    pub frame: u32,
    pub ceiling: i32,
}

fn head_of(given: ResultRecord<'_>) -> ResultHead
    ensures { answer_of (Ok result) ≡ said_by given.entry.bytes.now }
{
    ResultHead {
        m: given.at.m,
        rows: given.at.rows as u32,
        frame: given.frame_number(),
        ceiling: given.ceiling(),
    }
}

// Reads a record as an operator: the scores go to `scores`, 0 behind them. A record that is refused writes nowhere.
pub fn read_result_operator(bytes: &[u8], scores: &mut [i32]) -> Result<ResultHead, Refusal>
    ensures { operator_reading (answer_of result) scores.new ≡ operator_outcome bytes.now scores.old }
{
    let given = locate(bytes)?;
    check_operator(given, scores.len())?;
    write_scores(given, scores);
    Ok(head_of(given))
}

// Reads a record as a customer: the scores go to `scores` and the input rows to `inputs`, n bytes a row, 0 behind them. A record that is
// refused writes nowhere.
pub fn read_result(
    bytes: &[u8],
    scores: &mut [i32],
    inputs: &mut [u8],
) -> Result<ResultHead, Refusal>
    ensures { customer_reading (answer_of result) scores.new inputs.new
        ≡ customer_outcome bytes.now scores.old inputs.old }
{
    let given = locate(bytes)?;
    check_customer(given, scores.len(), inputs.len())?;
    write_scores(given, scores);
    write_inputs(given, inputs);
    Ok(head_of(given))
}
