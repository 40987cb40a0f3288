// Where the parts of a record lie, or what its shape is refused for: its length, its map of fields, m and the row count.
ghost use Rattle.spec.specs.ResultRecord.{result_length_faults, result_shape_faults};
ghost use Rattle.result_refusals.specs.Shape.{Headed, Found};

use crate::head::{Head, read_head};
use code::size;
use refusals::Refusal;
use result_fields::{Layout, ResultRecord, length_of, scores_at};

// A record whose first three bytes are right: refusal 13.
fn locate_parts(bytes: &[u8], head: Head) -> Result<ResultRecord<'_>, Refusal>
    requires { Headed bytes.now head.fields head.m head.rows }
    ensures { Found bytes.now (result_length_faults bytes.now) result }
{
    let rows = head.rows as usize;
    let end = length_of(head.fields, head.m, rows);
    if bytes.len() != end {
        return Err(Refusal::RecordLength);
    }
    let n = size(head.m);
    let scores = scores_at(head.fields);
    let at = Layout {
        fields: head.fields,
        m: head.m,
        rows,
        n,
        scores,
        packed: scores + 4 * rows,
    };
    Ok(ResultRecord { bytes, at })
}

// Refusals 13, 14, 13, 1, 4 and 13.
pub fn locate(bytes: &[u8]) -> Result<ResultRecord<'_>, Refusal>
    ensures { Found bytes.now (result_shape_faults bytes.now) result }
{
    let head = read_head(bytes)?;
    locate_parts(bytes, head)
}
