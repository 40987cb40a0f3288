// A record as a whole: whether it may be written, its length, and its bytes.
ghost use Rattle.std.specs.Prelude.{◌≡◌, ◌+◌, ◌*◌, ◌≤◌, length};
ghost use Rattle.spec.specs.RecordOf.{field_bit};
ghost use Rattle.spec.specs.Outcome.{writing};
ghost use Rattle.spec.specs.ResultWriter.{frame_field, ceiling_field, written_result, write_result_outcome};
ghost use Rattle.place.specs.Put.{Put};
ghost use Rattle.laws.specs.ResultWriting.{WritableResult};
ghost use Rattle.record_writer.specs.Answer.{length_of};
ghost use Rattle.result_writer.specs.Given.{given_of};

use crate::block::BlockResult;
use crate::parts::put_scores;
use numbers::thirty_two_bits;
use record_writer::bit_unless;
use refusals::Refusal;
use result_fields::length_of;
use slices::fill_from;

impl BlockResult<'_> {
    // The record, and 0 behind it; of a result that is refused nothing.
    pub(crate) fn write(self, out: &mut [u8]) -> Result<u32, Refusal>
        ensures { writing (length_of result) out.new ≡ write_result_outcome (given_of self.entry) out.old }
    {
        self.check()?;
        let k = self.length();
        if out.len() < k {
            return Err(Refusal::Room);
        }
        self.put(out);
        fill_from(out, k, 0);
        Ok(k as u32)
    }

    // Byte 0.
    pub(crate) fn fields_byte(self) -> u8
        requires { 1 ≤ length self.scores.now }
        ensures { (result ≡ field_bit (frame_field (given_of self.entry)) + 2 * field_bit (ceiling_field (given_of self.entry)))
            × (result ≤ 3) }
    {
        let first = thirty_two_bits(self.scores[0]);
        let top = thirty_two_bits(self.ceiling);
        let a = bit_unless(0, self.frame);
        let b = bit_unless(first, top);
        a + 2 * b
    }

    // How long the record is.
    fn length(self) -> usize
        requires { WritableResult (given_of self) }
        ensures { (result ≡ length (written_result (given_of self.entry))) × (result ≤ 4235) }
    {
        length_of(self.fields_byte() as u32, self.m, self.rows as usize)
    }

    // The record at the front of an output that has room for it. Gives the place behind it.
    fn put(self, out: &mut [u8]) -> usize
        requires { (WritableResult (given_of self)) × (length (written_result (given_of self)) ≤ length out.old) }
        ensures { Put 0 (written_result (given_of self.entry)) out.old result out.new }
    {
        let a = self.put_head(out);
        let b = put_scores(out, a, self.scores);
        self.put_rows(out, b)
    }
}
