// What a result record is refused for, decided before anything is written.
#![tactic(auto)]

mod head;
mod shape;
mod values;

ghost use Rattle.std.specs.Prelude.{◌≡◌};
ghost use Rattle.spec.specs.Faults.{first};
ghost use Rattle.spec.specs.Record.{positions};
ghost use Rattle.spec.specs.ResultRecord.{some_past, row_count, packed_part};
ghost use Rattle.laws.specs.ResultReading.{operator_rest, customer_rest};
ghost use Rattle.refusals.specs.Number.{refused};

pub use head::{Head, read_head};
use packed_rows::some_high;
use refusals::Refusal;
use result_fields::ResultRecord;
pub use shape::locate;
use slices::times;
use values::check_values;

// Behind those of the shape, the operator reader's refusals 22 and 10: so many scores are lent. No byte behind the scores is looked at.
pub fn check_operator(given: ResultRecord<'_>, scores: usize) -> Result<(), Refusal>
    ensures { refused result ≡ first (operator_rest given.entry.bytes.now scores) }
{
    check_values(given)?;
    if scores < given.at.rows {
        return Err(Refusal::Room);
    }
    Ok(())
}

// A packed bit past n: from eight positions on they fill their bytes.
fn some_past(given: ResultRecord<'_>) -> bool
    ensures { result ≡ some_past (positions given.entry.bytes.now) (row_count given.entry.bytes.now) (packed_part given.entry.bytes.now) }
{
    given.at.m == 2 && some_high(given.packed_rows())
}

// Behind those of the shape, the customer reader's refusals 22, 10 and 21: so many scores and input bytes are lent.
pub fn check_customer(given: ResultRecord<'_>, scores: usize, inputs: usize) -> Result<(), Refusal>
    ensures { refused result ≡ first (customer_rest given.entry.bytes.now scores inputs) }
{
    check_operator(given, scores)?;
    if inputs < times(given.at.rows, given.at.n) {
        return Err(Refusal::Room);
    }
    if some_past(given) {
        return Err(Refusal::PackedBits);
    }
    Ok(())
}
