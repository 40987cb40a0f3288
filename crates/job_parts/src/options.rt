// The fields that may be left out: list size, stop position and frame number.
ghost use Rattle.std.specs.Prelude.{◌≡◌, ◌++◌, ◌+◌, ◌*◌, ◌≤◌, length};
ghost use Rattle.spec.specs.RecordOf.{field_bit, field_bytes};
ghost use Rattle.spec.specs.JobWriter.{unless};
ghost use Rattle.place.specs.Put.{Put};

use record_writer::{bit_unless, put_unless};

// Their values, and n, which is the stop position where none stands.
#[derive(Clone, Copy)]
pub struct Options {
    pub n: u32,
    pub list_size: u32,
    pub stop: u32,
    pub frame: u32,
}

impl Options {
    // The sum of the bits of those that stand. A field has as many bytes as its bit says, 1, 2 and 4, so this is also how many bytes they take.
    pub fn bits(self) -> u8
        ensures { (result ≡ field_bit (unless 4 self.list_size) + 2 * field_bit (unless self.n self.stop) + 4 * field_bit (unless 0 self.frame))
            × (result ≤ 7) }
    {
        let a = bit_unless(4, self.list_size);
        let b = bit_unless(self.n, self.stop);
        let c = bit_unless(0, self.frame);
        a + 2 * b + 4 * c
    }

    // Those that stand, written from a place on. Returns the place behind them.
    pub(crate) fn put(self, out: &mut [u8], at: usize) -> usize
        requires { at + 7 ≤ length out.old }
        ensures { (Put at (field_bytes 1 (unless 4 self.list_size) ++ (field_bytes 2 (unless self.n self.stop) ++ field_bytes 4 (unless 0 self.frame)))
            out.old result out.new) × (result ≤ at + 7) }
    {
        let a = put_unless(out, at, 1, 4, self.list_size);
        let b = put_unless(out, a, 2, self.n, self.stop);
        put_unless(out, b, 4, 0, self.frame)
    }
}
