// The scores and the input rows of a record, at the front of a lent slice each, and 0 behind.
ghost use Rattle.std.specs.Prelude.{◌≡◌, ◌*◌, ◌≤◌, length, pos};
ghost use Rattle.spec.specs.Outcome.{padded};
ghost use Rattle.spec.specs.Record.{positions};
ghost use Rattle.spec.specs.ResultRecord.{row_count, result_scores, result_inputs};
ghost use Rattle.place.specs.Put.{Put};

use packed_rows::put_unpacked;
use result_fields::ResultRecord;
use slices::fill_from;

pub(crate) fn write_scores(given: ResultRecord<'_>, scores: &mut [i32])
    requires { row_count given.bytes.now ≤ length scores.old }
    ensures { scores.new ≡ padded (pos 0) (length scores.old) (result_scores given.entry.bytes.now) }
{
    for i in 0..given.at.rows {
        scores[i] = given.score(i);
    }
    fill_from(scores, given.at.rows, 0);
}

// The bits of all rows at the front of `inputs`. Returns how many there are.
fn put_inputs(given: ResultRecord<'_>, inputs: &mut [u8]) -> usize
    requires { row_count given.bytes.now * positions given.bytes.now ≤ length inputs.old }
    ensures { (Put 0 (result_inputs given.entry.bytes.now) inputs.old result inputs.new)
        × (result ≤ length inputs.old) }
{
    if given.at.m == 2 {
        return put_unpacked(inputs, given.packed_rows(), 4);
    }
    put_unpacked(inputs, given.packed_rows(), 8)
}

pub(crate) fn write_inputs(given: ResultRecord<'_>, inputs: &mut [u8])
    requires { row_count given.bytes.now * positions given.bytes.now ≤ length inputs.old }
    ensures { inputs.new ≡ padded 0 (length inputs.old) (result_inputs given.entry.bytes.now) }
{
    let count = put_inputs(given, inputs);
    fill_from(inputs, count, 0);
}
