// A load of a code that is not refused: its payload, its soft values, and its record.
ghost use Rattle.std.specs.Prelude.{◌≡◌, ◌^◌, ◌≤◌, length};
ghost use Rattle.spec.specs.Code.{payload_size, encoded};
ghost use Rattle.spec.specs.TestLoad.{after_draws, drawn_payload, drawn_soft, next_state, load_record};
ghost use Rattle.place.specs.Put.{Put};
ghost use Rattle.laws.specs.Accepted.{Accepted};
ghost use Rattle.code.specs.Codes.{code_of};

use crate::Load;
use code::{Code, size};
use draws::{draw_bits, draw_soft};
use encoder::write_word;
use job_writer::write_record;

// The payload and its code word. Gives the state from which the soft values are drawn.
fn draw_word(s: u32, code: Code<'_>, payload: &mut [u8], word: &mut [u8]) -> u32
    requires { (Accepted (code_of code))
        × (length payload.old ≡ payload_size (code_of code))
        × (length word.old ≡ 2 ^ code.m) }
    ensures { (result ≡ after_draws (payload_size (code_of code.entry)) s)
        × (payload.new ≡ drawn_payload s (code_of code.entry))
        × (word.new ≡ encoded (code_of code.entry) (drawn_payload s (code_of code.entry))) }
{
    let state = draw_bits(s, payload);
    write_word(code, payload, word);
    state
}

// The payload and the soft values. Gives the next state.
fn draw_load(s: u32, code: Code<'_>, payload: &mut [u8], soft: &mut [i16]) -> u32
    requires { (Accepted (code_of code))
        × (length payload.old ≡ payload_size (code_of code))
        × (length soft.old ≡ 2 ^ code.m) }
    ensures { (result ≡ next_state s (code_of code.entry))
        × (payload.new ≡ drawn_payload s (code_of code.entry))
        × (soft.new ≡ drawn_soft s (code_of code.entry)) }
{
    let mut word = [0u8; 1024];
    let n = size(code.m);
    let state = draw_word(s, code, payload, &mut word[..n]);
    draw_soft(state, &word[..n], soft)
}

// The payload, and the record at the front of an output that has room for it.
pub(crate) fn write_load(
    s: u32,
    code: Code<'_>,
    frame: u32,
    out: &mut [u8],
    payload: &mut [u8],
) -> Load
    requires { (Accepted (code_of code))
        × (length (load_record s (code_of code) frame) ≤ length out.old)
        × (length payload.old ≡ payload_size (code_of code)) }
    ensures { (result.state ≡ next_state s (code_of code.entry))
        × (Put 0 (load_record s (code_of code.entry) frame) out.old result.length out.new)
        × (payload.new ≡ drawn_payload s (code_of code.entry)) }
{
    let mut soft = [0i16; 1024];
    let n = size(code.m);
    let state = draw_load(s, code, payload, &mut soft[..n]);
    let length = write_record(code, 4, n as u32, frame, &soft[..n], out);
    Load {
        length: length as u32,
        state,
    }
}
