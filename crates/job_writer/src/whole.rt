// A record as a whole, of fields that are not refused: its length, and its bytes.
ghost use Rattle.std.specs.Prelude.{◌≡◌, Bool, List, ◌^◌, ◌≤◌, ℤ, length};
ghost use Rattle.spec.specs.Code as definitions;
ghost use Rattle.spec.specs.JobWriter.{fields_of, written_record};
ghost use Rattle.place.specs.Put.{Put};
ghost use Rattle.laws.specs.Accepted.{Accepted};
ghost use Rattle.laws.specs.WriteCall.{Writable};
ghost use Rattle.code.specs.Codes.{code_of};

use code::{Code, size};
use job_parts::{Options, fields_byte, pair_bit, put_head, put_rest};

// The length of a record, which does not depend on its soft values nor on the transform.
pub fn record_length(code: Code, l: u32, p: u32, frame: u32) -> usize
    requires { (arikan : Bool) → Accepted (definitions.code code.m arikan code.map.now code.pairs.now) }
    ensures { ((arikan : Bool) (soft : List ℤ) → length soft ≡ 2 ^ code.entry.m
        → result ≡ length (written_record (fields_of (definitions.code code.entry.m arikan code.entry.map.now code.entry.pairs.now) l p frame soft)))
        × (result ≤ 3211) }
{
    let n = size(code.m);
    let options = Options {
        n: n as u32,
        list_size: l,
        stop: p,
        frame,
    };
    let q = pair_bit(code.pairs);
    2 + options.bits() as usize + code.map.len() + 2 * (q as usize) + code.pairs.len() + 2 * n
}

// The record at the front of an output that has room for it. Gives the place behind it.
pub fn write_record(code: Code, l: u32, p: u32, frame: u32, soft: &[i16], out: &mut [u8]) -> usize
    requires { (Writable (fields_of (code_of code) l p frame soft.now))
        × (length (written_record (fields_of (code_of code) l p frame soft.now)) ≤ length out.old) }
    ensures { Put 0 (written_record (fields_of (code_of code.entry) l p frame soft.now)) out.old result out.new }
{
    let options = Options {
        n: size(code.m) as u32,
        list_size: l,
        stop: p,
        frame,
    };
    let fields = fields_byte(options, code.pairs, code.arikan);
    let at = put_head(out, fields, code.m, options);
    put_rest(out, at, code.map, code.pairs, soft)
}
