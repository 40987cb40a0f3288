// The parts of a record: its head, and the frozen map, the pairs and the soft values behind it.
ghost use Rattle.std.specs.Prelude.{◌≡◌, false, ◌++◌, ◌+◌, ◌%◌, ◌≤◌, ◌<◌, length};
ghost use Rattle.spec.specs.Faults.{some};
ghost use Rattle.spec.specs.Refusals.{out_of_range};
ghost use Rattle.spec.specs.RecordOf.{head_of, pair_bytes, soft_bytes};
ghost use Rattle.spec.specs.Score.{taken};
ghost use Rattle.spec.specs.JobWriter.{unless, unless_none};
ghost use Rattle.place.specs.Put.{Put};

use crate::options::Options;
use crate::soft::put_soft;
use numbers::{low_byte, put_low};
use place::{put_byte, put_bytes};

// Byte 0, m, and the fields that stand.
pub fn put_head(out: &mut [u8], fields: u8, m: u32, options: Options) -> usize
    requires { (m < 256) × (9 ≤ length out.old) }
    ensures { Put 0 (head_of fields m (unless 4 options.list_size) (unless options.n options.stop) (unless 0 options.frame))
        out.old result out.new }
{
    let a = put_byte(out, 0, fields);
    let b = put_byte(out, a, low_byte(m));
    options.put(out, b)
}

// Where there are pairs: their count, and their bytes.
fn put_pairs(out: &mut [u8], at: usize, pairs: &[u8]) -> usize
    requires { (length pairs.now % 4 ≡ 0) × (length pairs.now ≤ 1024) × (at + length pairs.now + 2 ≤ length out.old) }
    ensures { Put at (pair_bytes (unless_none pairs.now)) out.old result out.new }
{
    if pairs.len() == 0 {
        return at;
    }
    let next = put_low(out, at, 2, (pairs.len() / 4) as u32);
    put_bytes(out, next, pairs)
}

// The frozen map, the pairs and the soft values.
pub fn put_rest(out: &mut [u8], at: usize, frozen: &[u8], pairs: &[u8], soft: &[i16]) -> usize
    requires { (length pairs.now % 4 ≡ 0) × (length pairs.now ≤ 1024) × (4 ≤ length soft.now) × (some out_of_range soft.now ≡ false)
        × (at + length (frozen.now ++ (pair_bytes (unless_none pairs.now) ++ soft_bytes (taken soft.now))) ≤ length out.old) }
    ensures { Put at (frozen.now ++ (pair_bytes (unless_none pairs.now) ++ soft_bytes (taken soft.now)))
        out.old result out.new }
{
    let a = put_bytes(out, at, frozen);
    let b = put_pairs(out, a, pairs);
    put_soft(out, b, soft)
}
