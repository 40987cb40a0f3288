// Calls of the test load: the length and the next state or the refusal, and the two outputs.
ghost use Rattle.std.specs.Prelude.{◌≡◌, ◌≤◌, length};

use crate::lines::least;
use crate::say::{say_number, say_refusal, say_spaced};
use code::Code;
use test_load::{Load, test_load};

// The length of the record and the next state.
fn say_load(load: Load) {
    say_number(b": length ", load.length);
    say_number(b", state ", load.state);
}

// What a call is given in numbers, the first six: the state, m, the choice of the transform and the frame number, and how long the output
// is and how much room the payload has.
#[derive(Drop)]
pub(crate) struct Wanted {
    pub state: u32,
    pub m: u32,
    pub arikan: bool,
    pub frame: u32,
    pub len: usize,
    pub room: usize,
}

pub(crate) fn read_wanted(fields: &[u32]) -> Wanted
    requires { length fields.now ≡ 9 }
    ensures { (result.len ≤ 48) × (result.room ≤ 16) }
{
    Wanted {
        state: fields[0],
        m: fields[1],
        arikan: fields[2] != 0,
        frame: fields[3],
        len: least(fields[4], 48),
        room: least(fields[5], 16),
    }
}

pub(crate) fn load_wanted(map: &[u8], pairs: &[u8], x: Wanted)
    requires { (x.len ≤ 48) × (x.room ≤ 16) }
{
    let code = Code {
        m: x.m,
        arikan: x.arikan,
        map,
        pairs,
    };
    let len = x.len;
    let room = x.room;
    let mut space = [5u8; 48];
    let mut bits = [5u8; 16];
    let output: &mut [u8] = &mut space[..len];
    let payload: &mut [u8] = &mut bits[..room];
    match test_load(x.state, code, x.frame, output, payload) {
        Ok(load) => say_load(load),
        Err(refusal) => say_refusal(refusal),
    }
    say_spaced(b", output", output);
    say_spaced(b", payload", payload);
}
