// A result that is to be written, and what it is refused for before its length counts.
ghost use Rattle.std.specs.Prelude.{◌≡◌, ◌≤◌, length};
ghost use Rattle.spec.specs.Faults.{first};
ghost use Rattle.spec.specs.ResultRecord.{rising};
ghost use Rattle.laws.specs.ResultWriting.{result_given_faults, result_order_faults, result_faults};
ghost use Rattle.refusals.specs.Number.{refused};
ghost use Rattle.result_writer.specs.Given.{given_of};

use code::size;
use packed_rows::some_not_bit;
use refusals::Refusal;
use result_fields::scores_rise;
use slices::times;

#[derive(Clone, Copy)]
pub(crate) struct BlockResult<'a> {
    pub m: u32,
    pub rows: u32,
    pub frame: u32,
    pub ceiling: i32,
    pub scores: &'a [i32],
    pub inputs: &'a [u8],
}

fn rising(scores: &[i32]) -> bool
    ensures { result ≡ rising scores.now }
{
    scores_rise(scores.len(), |i| scores[i])
}

impl BlockResult<'_> {
    // Refusals 1, 4, 6, 11 and 22.
    pub(crate) fn check(self) -> Result<(), Refusal>
        ensures { refused result ≡ first (result_faults (given_of self.entry)) }
    {
        self.check_given()?;
        self.check_order()
    }

    // Refusals 1, 4, 6 and 11. Scores that are not one a row are 6, whatever the inputs are.
    fn check_given(self) -> Result<(), Refusal>
        ensures { refused result ≡ first (result_given_faults (given_of self.entry)) }
    {
        if self.m < 2 {
            return Err(Refusal::Exponent);
        }
        if self.m > 10 {
            return Err(Refusal::Exponent);
        }
        if self.rows < 1 {
            return Err(Refusal::ListSize);
        }
        if self.rows > 32 {
            return Err(Refusal::ListSize);
        }
        if self.scores.len() != self.rows as usize {
            return Err(Refusal::GivenLength);
        }
        let n = size(self.m);
        if self.inputs.len() != times(self.rows as usize, n) {
            return Err(Refusal::GivenLength);
        }
        if some_not_bit(self.inputs) {
            return Err(Refusal::NotBits);
        }
        Ok(())
    }

    // Refusal 22.
    fn check_order(self) -> Result<(), Refusal>
        requires { 1 ≤ length self.scores.now }
        ensures { refused result ≡ first (result_order_faults (given_of self.entry)) }
    {
        if rising(self.scores) {
            return Err(Refusal::ScoreOrder);
        }
        let low = self.ceiling < self.scores[0];
        if low {
            return Err(Refusal::ScoreOrder);
        }
        Ok(())
    }
}
