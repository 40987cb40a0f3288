// The parts of a record, put into a buffer. Each function returns the place behind what it wrote.
ghost use Rattle.std.specs.Prelude.{◌≡◌, ◌++◌, ◌+◌, ◌*◌, ◌≤◌, length};
ghost use Rattle.spec.specs.RecordOf.{field_bit, field_bytes};
ghost use Rattle.spec.specs.ResultWriter.{frame_field, ceiling_field, head_bytes, packed_rows, score_bytes, size};
ghost use Rattle.place.specs.Put.{Put};
ghost use Rattle.laws.specs.ResultWriting.{WritableResult};
ghost use Rattle.result_writer.specs.Given.{given_of};

use crate::block::BlockResult;
use code::size;
use numbers::{low_byte, put_low, thirty_two_bits};
use packed_rows::put_packed;
use place::put_byte;
use record_writer::put_unless;
use slices::times;

impl BlockResult<'_> {
    // Byte 0, m, the row count, and the fields that stand.
    pub(crate) fn put_head(self, out: &mut [u8]) -> usize
        requires { (WritableResult (given_of self)) × (7 + 4 * field_bit (frame_field (given_of self)) ≤ length out.old) }
        ensures { Put 0 (head_bytes (given_of self.entry)) out.old result out.new }
    {
        let a = put_byte(out, 0, self.fields_byte());
        let b = put_byte(out, a, low_byte(self.m));
        let c = put_byte(out, b, low_byte(self.rows));
        self.put_fields(out, c)
    }

    // Frame number and ceiling, each only where it stands.
    fn put_fields(self, out: &mut [u8], at: usize) -> usize
        requires { (1 ≤ length self.scores.now) × (at + 4 + 4 * field_bit (frame_field (given_of self)) ≤ length out.old) }
        ensures { Put at (field_bytes 4 (frame_field (given_of self.entry)) ++ field_bytes 4 (ceiling_field (given_of self.entry)))
            out.old result out.new }
    {
        let first = thirty_two_bits(self.scores[0]);
        let top = thirty_two_bits(self.ceiling);
        let next = put_unless(out, at, 4, 0, self.frame);
        put_unless(out, next, 4, first, top)
    }

    // Rows of n bits, each packed by itself.
    pub(crate) fn put_rows(self, out: &mut [u8], at: usize) -> usize
        requires { (WritableResult (given_of self))
            × (at + length (packed_rows (size (given_of self)) self.rows self.inputs.now) ≤ length out.old) }
        ensures { Put at (packed_rows (size (given_of self.entry)) self.entry.rows self.entry.inputs.now) out.old result out.new }
    {
        let rows = self.rows as usize;
        if self.m == 2 {
            return put_packed(out, at, self.inputs, 4, rows);
        }
        let count = times(rows, (size(self.m) + 7) / 8);
        put_packed(out, at, self.inputs, 8, count)
    }
}

pub(crate) fn put_scores(out: &mut [u8], at: usize, scores: &[i32]) -> usize
    requires { at + 4 * length scores.now ≤ length out.old }
    ensures { (Put at (score_bytes scores.now) out.old result out.new)
        × (result ≤ at + 4 * length scores.now) }
{
    let mut next = at;
    for y in scores {
        next = put_low(out, next, 4, thirty_two_bits(*y));
    }
    next
}
