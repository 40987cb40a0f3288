// Texts at the right end of columns, written into a buffer from a place on. Each function returns the place behind what it wrote.
#![tactic(auto)]

ghost use Rattle.std.specs.Prelude.{◌≡◌, ◌+◌, ◌≤◌, length};
ghost use Rattle.place.specs.Put.{Put};
ghost use Rattle.columns.specs.Columns.{spaces, right};

use itoa::{Buffer, Integer};
use place::put_bytes;

pub fn put_spaces(out: &mut [u8], at: usize, k: usize) -> usize
    requires { at + k ≤ length out.old }
    ensures { (Put at (spaces k) out.old result out.new) × (result ≡ at + k) }
{
    let end = at + k;
    out[at..end].fill(b' ');
    end
}

// A text at the right end of w columns.
pub fn put_right(out: &mut [u8], at: usize, w: usize, text: &[u8]) -> usize
    requires { (length text.now ≤ w) × (at + w ≤ length out.old) }
    ensures { (Put at (right w text.now) out.old result out.new) × (result ≡ at + w) }
{
    let next = put_spaces(out, at, w - text.len());
    put_bytes(out, next, text)
}

// A number of any type, as it is printed.
pub fn put_number_right<I: Integer>(out: &mut [u8], at: usize, w: usize, x: I) -> usize
    requires { (length (I.text x) ≤ w) × (at + w ≤ length out.old) }
    ensures { (Put at (right w (I.text x)) out.old result out.new) × (result ≡ at + w) }
{
    put_right(out, at, w, Buffer::new().format(x).as_bytes())
}
