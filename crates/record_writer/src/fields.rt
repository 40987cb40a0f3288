// A field that is left out where its value is the one that absence means.
ghost use Rattle.std.specs.Prelude.{◌≡◌, ◌+◌, ◌≤◌, length};
ghost use Rattle.spec.specs.RecordOf.{field_bit, field_bytes};
ghost use Rattle.spec.specs.JobWriter.{unless};
ghost use Rattle.place.specs.Put.{Put};

use numbers::put_low;

// Its bit in byte 0: 1 where it is written.
pub fn bit_unless(absence: u32, x: u32) -> u8
    ensures { (result ≡ field_bit (unless absence x)) × (result ≤ 1) }
{
    if x == absence {
        return 0;
    }
    1
}

// Its bytes, so many, from a place on. Returns the place behind what it wrote.
pub fn put_unless(out: &mut [u8], at: usize, count: usize, absence: u32, x: u32) -> usize
    requires { at + count ≤ length out.old }
    ensures { (Put at (field_bytes count (unless absence x)) out.old result out.new) × (result ≤ at + count) }
{
    if x == absence {
        return at;
    }
    put_low(out, at, count, x)
}
