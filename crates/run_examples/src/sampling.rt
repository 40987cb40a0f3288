// Calls of the quantiser: what it returned, and the slice of soft values.
ghost use Rattle.std.specs.Prelude.{◌≤◌};

use crate::lines::least;
use crate::lists::{byte_of, read_fields, read_list};
use crate::say::{say_all, say_number};
use quantise::quantise;
use refusals::number_for_host;

// With room for at most 10 soft values.
fn sample(m: u32, samples: &[u8], room: usize)
    requires { room ≤ 10 }
{
    let mut space = [5i16; 10];
    let soft: &mut [i16] = &mut space[..room];
    let answer = quantise(m, samples, soft);
    say_number(b": returned ", number_for_host(answer));
    say_all(b", soft values", soft);
}

// m, the room for soft values, and at most 33 bytes of samples.
pub(crate) fn sample_line(line: &[u8], at: usize) {
    let mut fields = [0u32; 2];
    let mut samples = [0u8; 33];
    let from = read_fields(line, at, &mut fields);
    let a = read_list(line, from, &mut samples, byte_of);
    let room = least(fields[1], 10);
    sample(fields[0], &samples[..a.len], room);
}
