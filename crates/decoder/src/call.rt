// The decoder's call: refused, or served.
ghost use Rattle.std.specs.Prelude.{◌≡◌};
ghost use Rattle.spec.specs.Outcome.{decoding, lent, decode_outcome};
ghost use Rattle.code.specs.Codes.{code_of};
ghost use Rattle.decoder.specs.Answers.{answer_of};

use crate::serve::serve;
use code::{Code, size};
use decode_refusals::check_decode;
use refusals::{Refusal, Room};
use slices::times;

// How many rows there are, and the ceiling.
#[derive(Clone, Copy, Debug, PartialEq, Eq)]
pub struct Decoded {
    pub rows: u32,
    pub ceiling: i32,
}

// The rows of the paper decoder at stop position p for list size l, by rank: inputs, words and scores, 0 behind them; and its ceiling.
pub fn decode(
    code: Code,
    l: u32,
    p: u32,
    soft: &[i16],
    numbers: &mut [u32],
    bytes: &mut [u8],
    inputs: &mut [u8],
    words: &mut [u8],
    scores: &mut [i32],
) -> Result<Decoded, Refusal>
    ensures { decoding (answer_of result) (lent numbers.new bytes.new inputs.new words.new scores.new)
        ≡ decode_outcome (code_of code.entry) l p soft.now (lent numbers.old bytes.old inputs.old words.old scores.old) }
{
    let room = Room::of(numbers, bytes, inputs, words, scores);
    check_decode(code, l, p, soft, room)?;
    let n = size(code.m);
    let h = times(n / 2, l as usize);
    Ok(serve(
        code, l as usize, p as usize, soft, numbers, bytes, inputs, words, scores, n, h,
    ))
}
