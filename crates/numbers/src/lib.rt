// Numbers of one, two and four bytes, low byte first: read from a slice, and put into one. Those of four bytes may be signed.
#![tactic(auto)]

mod signed;

ghost use Rattle.std.specs.Prelude.{◌≡◌, ◌+◌, ◌%◌, ◌≤◌, ◌<◌, length};
ghost use Rattle.spec.specs.Record.{two_at, four_at};
ghost use Rattle.spec.specs.RecordOf.{low_first};
ghost use Rattle.place.specs.Put.{Put};

pub use signed::{signed_four, thirty_two_bits};

pub fn wide(x: u8) -> u32
    ensures { (result ≡ x) × (result < 256) }
{
    u32::from(x)
}

pub fn two(bytes: &[u8], at: usize) -> u32
    requires { at + 1 < length bytes.now }
    ensures { (result ≡ two_at bytes.now at) × (result < 65536) }
{
    u32::from(u16::from_le_bytes([bytes[at], bytes[at + 1]]))
}

pub fn four(bytes: &[u8], at: usize) -> u32
    requires { at + 3 < length bytes.now }
    ensures { result ≡ four_at bytes.now at }
{
    u32::from_le_bytes([bytes[at], bytes[at + 1], bytes[at + 2], bytes[at + 3]])
}

pub fn low_byte(x: u32) -> u8
    ensures { result ≡ x % 256 }
{
    (x % 256) as u8
}

// The low bytes of x, so many, from a place on. Returns the place behind them.
pub fn put_low(out: &mut [u8], at: usize, count: usize, x: u32) -> usize
    requires { at + count ≤ length out.old }
    ensures { (Put at (low_first count x) out.old result out.new) × (result ≤ at + count) }
{
    let end = at + count;
    let mut rest = x;
    for b in out[at..end].iter_mut() {
        *b = low_byte(rest);
        rest /= 256;
    }
    end
}
