// The test load: a job record of a payload and noise that are drawn from a state, the same on every machine.
#![tactic(auto)]

mod check;
mod drawn;
mod host;

ghost use Rattle.std.specs.Prelude.{◌≡◌};
ghost use Rattle.spec.specs.TestLoad.{loading, load_outcome};
ghost use Rattle.code.specs.Codes.{code_of};
ghost use Rattle.test_load.specs.Answer.{load_of};

use check::check_load;
use code::Code;
use drawn::write_load;
pub use host::LoadFields;
use refusals::Refusal;
use slices::fill_from;

// The length of the record, and the next state.
#[derive(Clone, Copy, Debug, PartialEq, Eq)]
pub struct Load {
    pub length: u32,
    pub state: u32,
}

// Draws a payload and the soft values of its code word, and writes the record of these with list size 4 and stop position n to `out`; 0
// behind the record and behind the payload. A call that is refused writes nowhere.
pub fn test_load(
    s: u32,
    code: Code<'_>,
    frame: u32,
    out: &mut [u8],
    payload: &mut [u8],
) -> Result<Load, Refusal>
    ensures { loading (load_of result) out.new payload.new
        ≡ load_outcome s (code_of code.entry) frame out.old payload.old }
{
    check_load(s, code, frame, out.len(), payload.len())?;
    let k = code.payload_size();
    let load = write_load(s, code, frame, out, &mut payload[..k]);
    fill_from(out, load.length as usize, 0);
    fill_from(payload, k, 0);
    Ok(load)
}
