// The encoder.
#![tactic(auto)]

mod fill;

ghost use Rattle.std.specs.Prelude.{◌≡◌, ◌^◌, length};
ghost use Rattle.spec.specs.Code.{payload_size, encoded};
ghost use Rattle.spec.specs.Faults.{first};
ghost use Rattle.spec.specs.Outcome.{written, encode_outcome};
ghost use Rattle.refusals.specs.Number.{refused};
ghost use Rattle.code.specs.Codes.{code_of};
ghost use Rattle.code.specs.Given.{Given, given_faults};

use code::{Code, check_bits, size};
pub use fill::fill_input;
use refusals::Refusal;
use slices::fill_from;
use transform::transform_word;

// Refusals 1, 2, 3, 15, 6 and 11.
fn check_payload(code: Code<'_>, payload: &[u8]) -> Result<(), Refusal>
    ensures { refused result ≡ first (given_faults (code_of code.entry) (payload_size (code_of code.entry)) payload.now) }
{
    code.check()?;
    check_bits(code.payload_size(), payload)
}

// The code word of a payload, in a slice of n bytes.
pub fn write_word(code: Code<'_>, payload: &[u8], word: &mut [u8])
    requires { (length word.old ≡ 2 ^ code.m)
        × (Given (code_of code) (payload_size (code_of code)) payload.now) }
    ensures { word.new ≡ encoded (code_of code.entry) payload.now }
{
    fill_input(code.map, code.pairs, payload, word);
    transform_word(word, code.m, code.arikan);
}

// The code word in `word` and 0 behind it. A call that is refused writes nowhere.
pub fn encode(code: Code<'_>, payload: &[u8], word: &mut [u8]) -> Result<(), Refusal>
    ensures { written (refused result) word.new ≡ encode_outcome (code_of code.entry) payload.now word.old }
{
    check_payload(code, payload)?;
    let n = size(code.m);
    if word.len() < n {
        return Err(Refusal::Room);
    }
    write_word(code, payload, &mut word[..n]);
    fill_from(word, n, 0);
    Ok(())
}
