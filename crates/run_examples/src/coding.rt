// Calls of the encoder and the extractor: what they returned, and their output.
ghost use Rattle.std.specs.Prelude.{◌≤◌};

use crate::calls::Call;
use crate::lines::least;
use crate::lists::{byte_of, read_fields, read_list};
use crate::say::{say_bytes, say_number};
use code::Code;
use encoder::encode;
use extractor::extract;
use refusals::number_for_host;

// With an output of at most 16 bytes.
fn run_code(call: Call, code: Code, given: &[u8], len: usize)
    requires { len ≤ 16 }
{
    let mut space = [5u8; 16];
    let output = &mut space[..len];
    let answer = match call {
        Call::Extract => extract(code, given, output),
        _ => encode(code, given, output),
    };
    say_number(b": returned ", number_for_host(answer));
    say_bytes(b", output ", output);
}

// m, the choice of the transform, the output's length, at most 2 bytes of map, 16 of pairs and 16 of payload or word.
pub(crate) fn code_line(call: Call, line: &[u8], at: usize) {
    let mut fields = [0u32; 3];
    let mut map = [0u8; 2];
    let mut pairs = [0u8; 16];
    let mut given = [0u8; 16];
    let from = read_fields(line, at, &mut fields);
    let a = read_list(line, from, &mut map, byte_of);
    let q = read_list(line, a.at, &mut pairs, byte_of);
    let b = read_list(line, q.at, &mut given, byte_of);
    let code = Code {
        m: fields[0],
        arikan: fields[1] != 0,
        map: &map[..a.len],
        pairs: &pairs[..q.len],
    };
    run_code(call, code, &given[..b.len], least(fields[2], 16));
}
