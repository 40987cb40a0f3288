// The first three bytes of a record: its map of fields, m and the row count.
ghost use Rattle.result_refusals.specs.Shape.{HeadFound};

use refusals::Refusal;

#[derive(Clone, Copy, Debug, PartialEq, Eq)]
pub struct Head {
    pub fields: u32,
    pub m: u32,
    pub rows: u32,
}

// Refusals 13, 14, 13, 1 and 4: what a record that begins with these bytes is refused for whatever follows; 13 where fewer than three are
// there and the first of them is right.
pub fn read_head(bytes: &[u8]) -> Result<Head, Refusal>
    ensures { HeadFound bytes.now result }
{
    if bytes.len() == 0 {
        return Err(Refusal::RecordLength);
    }
    let fields = u32::from(bytes[0]);
    if fields > 3 {
        return Err(Refusal::FieldMap);
    }
    if bytes.len() < 3 {
        return Err(Refusal::RecordLength);
    }
    let m = u32::from(bytes[1]);
    if m < 2 {
        return Err(Refusal::Exponent);
    }
    if m > 10 {
        return Err(Refusal::Exponent);
    }
    let rows = u32::from(bytes[2]);
    if rows < 1 {
        return Err(Refusal::ListSize);
    }
    if rows > 32 {
        return Err(Refusal::ListSize);
    }
    Ok(Head { fields, m, rows })
}
