// Where the parts of a record lie, or what its shape is refused for: its length, its map of fields, m and the count of its pairs.
ghost use Rattle.std.specs.Prelude.{◌≡◌, ◌+◌, ◌*◌, ◌/◌, ◌%◌, ◌≤◌, ◌<◌, length};
ghost use Rattle.spec.specs.Record.{if_present, two_at, shape_faults};
ghost use Rattle.job_refusals.specs.Shape.{length_faults, Headed, Found};

use code::size;
use job_fields::{JobRecord, Layout, map_at, map_end};
use numbers::{two, wide};
use refusals::Refusal;

// The number of pairs, where the frozen map ends at `end`: its two bytes are read only where bit 3 of the map of fields says that they stand.
fn pair_count(bytes: &[u8], fields: u32, end: usize) -> u32
    requires { end + 2 * (fields / 8 % 2) ≤ length bytes.now }
    ensures { (result ≡ if_present (fields / 8 % 2) (two_at bytes.now end) 0) × (result < 65536) }
{
    if fields / 8 % 2 == 0 {
        return 0;
    }
    two(bytes, end)
}

// Refusals 13, 15 and 13.
fn locate_parts(bytes: &[u8], fields: u32, m: u32) -> Result<JobRecord, Refusal>
    requires { Headed bytes.now fields m }
    ensures { Found bytes.now (length_faults bytes.now) result }
{
    let n = size(m);
    let end = map_end(fields, n);
    let pairs = end + 2 * (fields / 8 % 2) as usize;
    if bytes.len() < pairs {
        return Err(Refusal::RecordLength);
    }
    let count = pair_count(bytes, fields, end);
    let soft = pairs + 4 * (count as usize);
    let many = count > 256;
    let wrong = bytes.len() != soft + 2 * n;
    if many {
        return Err(Refusal::Pairs);
    }
    if wrong {
        return Err(Refusal::RecordLength);
    }
    let map = map_at(fields);
    let at = Layout {
        fields,
        m,
        n,
        count,
        map,
        pairs,
        soft,
    };
    Ok(JobRecord { bytes, at })
}

// Refusals 13, 14, 13, 1, 13, 15 and 13.
pub fn locate(bytes: &[u8]) -> Result<JobRecord, Refusal>
    ensures { Found bytes.now (shape_faults bytes.now) result }
{
    if bytes.len() == 0 {
        return Err(Refusal::RecordLength);
    }
    let fields = wide(bytes[0]);
    if fields > 31 {
        return Err(Refusal::FieldMap);
    }
    if bytes.len() == 1 {
        return Err(Refusal::RecordLength);
    }
    let m = wide(bytes[1]);
    if m < 2 {
        return Err(Refusal::Exponent);
    }
    if m > 10 {
        return Err(Refusal::Exponent);
    }
    locate_parts(bytes, fields, m)
}
