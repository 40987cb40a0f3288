// Calls of the job writer: the length or the refusal, and the output.
ghost use Rattle.std.specs.Prelude.{◌≡◌, ◌≤◌, length};

use crate::lines::least;
use crate::say::{say_number, say_refusal, say_spaced};
use code::Code;
use job_writer::write_job;
use refusals::Refusal;

pub(crate) fn say_length(answer: Result<u32, Refusal>) {
    match answer {
        Ok(length) => say_number(b": length ", length),
        Err(refusal) => say_refusal(refusal),
    }
}

// What a call is given in numbers, the third to the sixth: l, p and the frame number, and how long the output is.
#[derive(Drop)]
pub(crate) struct Told {
    pub l: u32,
    pub p: u32,
    pub frame: u32,
    pub len: usize,
}

pub(crate) fn read_told(fields: &[u32]) -> Told
    requires { length fields.now ≡ 9 }
    ensures { result.len ≤ 48 }
{
    Told {
        l: fields[2],
        p: fields[3],
        frame: fields[4],
        len: least(fields[5], 48),
    }
}

pub(crate) fn write_told(code: Code, soft: &[i16], x: Told)
    requires { x.len ≤ 48 }
{
    let len = x.len;
    let mut space = [5u8; 48];
    let output: &mut [u8] = &mut space[..len];
    let answer = write_job(code, x.l, x.p, x.frame, soft, output);
    say_length(answer);
    say_spaced(b", output", output);
}
