// Payloads by their numbers, and their code words.
ghost use Rattle.std.specs.Prelude.{◌≡◌, length};
ghost use Rattle.spec.specs.Code.{payload_size, encoded};
ghost use Rattle.code.specs.Codes.{code_of};
ghost use Rattle.payload_blocks.specs.Payloads.{numeral};
ghost use Rattle.payload_blocks.specs.WordFits.{WordFits};

use code::Code;
use encoder::write_word;

// The payload with number q: its bits, the highest first.
pub fn put_payload(payload: &mut [u8], q: usize)
    ensures { payload.new ≡ numeral (length payload.old) q }
{
    let mut rest = q;
    for i in (0..payload.len()).rev() {
        payload[i] = (rest % 2) as u8;
        rest /= 2;
    }
}

// The code word of the payload with number q. The payload is working memory.
pub(crate) fn put_word(code: Code, payload: &mut [u8], word: &mut [u8], q: usize)
    requires { WordFits (code_of code) (length payload.old) (length word.old) }
    ensures { word.new ≡ encoded (code_of code.entry)
        (numeral (payload_size (code_of code.entry)) q) }
{
    put_payload(payload, q);
    write_word(code, payload, word);
}
