// How far the program reads for a record.
ghost use Rattle.std.specs.Prelude.{◌≡◌, ◌≤◌};
ghost use Rattle.log_page.specs.Reading.{extent};

use refusals::Refusal;
use result_fields::length_of;
use result_refusals::read_head;

// How many bytes of a record are needed to tell what is printed for it, as far as those that are there tell.
pub fn needed(records: u32, bytes: &[u8]) -> usize
    ensures { (result ≡ extent records bytes.now) × (result ≤ 4235) }
{
    if bytes.len() == 0 {
        return 1;
    }
    if records == 1000 {
        return 1;
    }
    match read_head(bytes) {
        Ok(head) => length_of(head.fields, head.m, head.rows as usize),
        Err(refusal) => {
            if refusal == Refusal::FieldMap {
                return 1;
            }
            3
        }
    }
}
