// Calls on a code and the soft values of a block, of the decoder, of the list of words and of the job writer, and calls on a code alone, of the
// test load.
ghost use Rattle.std.specs.Prelude.{◌≡◌, ◌≤◌, length};

use crate::calls::Call;
use crate::decoding::{decode_asked, read_asked};
use crate::listing::{list_marked, read_marked};
use crate::lists::{byte_of, read_fields, read_list, soft_of};
use crate::loading::{load_wanted, read_wanted};
use crate::writing::{read_told, write_told};
use code::Code;

// The first two numbers are m and the choice of the transform; of a test load they stand behind its state.
fn run_block(call: Call, map: &[u8], pairs: &[u8], soft: &[i16], fields: &[u32])
    requires { length fields.now ≡ 9 }
{
    let code = Code {
        m: fields[0],
        arikan: fields[1] != 0,
        map,
        pairs,
    };
    match call {
        Call::WriteJob => write_told(code, soft, read_told(fields)),
        Call::TestLoad => load_wanted(map, pairs, read_wanted(fields)),
        Call::ListWords => list_marked(code, soft, read_marked(fields)),
        _ => decode_asked(code, soft, read_asked(fields)),
    }
}

// How many numbers a call is given.
fn field_count(call: Call) -> usize
    ensures { result ≤ 9 }
{
    match call {
        Call::Decode => 9,
        Call::ListWords => 8,
        _ => 6,
    }
}

// The numbers, at most 4 bytes of map, 16 of pairs and 16 soft values, of which a test load is given none.
pub(crate) fn block_line(call: Call, line: &[u8], at: usize) {
    let count = field_count(call);
    let mut fields = [0u32; 9];
    let mut map = [0u8; 4];
    let mut pairs = [0u8; 16];
    let mut soft = [0i16; 16];
    let from = read_fields(line, at, &mut fields[..count]);
    let a = read_list(line, from, &mut map, byte_of);
    let q = read_list(line, a.at, &mut pairs, byte_of);
    let b = read_list(line, q.at, &mut soft, soft_of);
    run_block(
        call,
        &map[..a.len],
        &pairs[..q.len],
        &soft[..b.len],
        &fields,
    );
}
