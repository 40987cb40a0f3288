// The extractor.
#![tactic(auto)]

mod gather;

ghost use Rattle.std.specs.Prelude.{◌≡◌, ◌^◌, length};
ghost use Rattle.spec.specs.Transform.{inverse_by};
ghost use Rattle.spec.specs.Faults.{first};
ghost use Rattle.spec.specs.Outcome.{written, extract_outcome};
ghost use Rattle.laws.specs.Accepted.{Accepted};
ghost use Rattle.refusals.specs.Number.{refused};
ghost use Rattle.transform.specs.Word.{Word};
ghost use Rattle.code.specs.Codes.{code_of};
ghost use Rattle.code.specs.Given.{given_faults};
ghost use Rattle.extractor.specs.ExtractCall.{payload_outcome};

use code::{Code, check_bits, size};
use gather::{breaks_rule, gather_payload};
use refusals::Refusal;
use slices::fill_from;
use transform::invert_word;

// Refusals 1, 2, 3, 15, 6 and 11.
fn check_word(code: Code<'_>, word: &[u8]) -> Result<(), Refusal>
    ensures { refused result ≡ first (given_faults (code_of code.entry) (2 ^ code.entry.m) word.now) }
{
    code.check()?;
    check_bits(size(code.m), word)
}

// The input of a word.
fn write_input(m: u32, arikan: bool, word: &[u8], input: &mut [u8])
    requires { (length input.old ≡ length word.now) × (Word m word.now) }
    ensures { input.new ≡ inverse_by arikan m word.now }
{
    input.copy_from_slice(word);
    invert_word(input, m, arikan);
}

// Refusals 12 and 10; else the payload of an input in `payload` and 0 behind it.
fn write_payload(code: Code<'_>, input: &[u8], payload: &mut [u8]) -> Result<(), Refusal>
    requires { (Accepted (code_of code)) × (length input.now ≡ 2 ^ code.m) }
    ensures { written (refused result) payload.new ≡ payload_outcome (code_of code.entry) input.now payload.old }
{
    let outside = breaks_rule(code.map, code.pairs, input);
    let k = code.payload_size();
    let short = payload.len() < k;
    if outside {
        return Err(Refusal::OutsideCode);
    }
    if short {
        return Err(Refusal::Room);
    }
    gather_payload(code.map, input, &mut payload[..k]);
    fill_from(payload, k, 0);
    Ok(())
}

// The payload of a word in `payload` and 0 behind it. A refused call writes nowhere, so the input is worked out aside.
pub fn extract(code: Code<'_>, word: &[u8], payload: &mut [u8]) -> Result<(), Refusal>
    ensures { written (refused result) payload.new ≡ extract_outcome (code_of code.entry) word.now payload.old }
{
    check_word(code, word)?;
    let n = size(code.m);
    let mut input = [0u8; 1024];
    write_input(code.m, code.arikan, word, &mut input[..n]);
    write_payload(code, &input[..n], payload)
}
