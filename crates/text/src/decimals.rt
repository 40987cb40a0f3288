// Numbers in decimal, written into a buffer from a place on. Each function returns the place behind what it wrote.
ghost use Rattle.std.specs.Prelude.{◌++◌, ◌+◌, ◌≤◌, length};
ghost use Rattle.place.specs.Put.{Put};

use itoa::{Buffer, Integer};
use place::put_bytes;

// A number of any type, as it is printed: with its digits, and a minus sign before a negative one.
pub fn put_number<I: Integer>(out: &mut [u8], at: usize, x: I) -> usize
    requires { at + I.MAX_STR_LEN ≤ length out.old }
    ensures { (Put at (I.text x) out.old result out.new) × (result ≤ at + I.MAX_STR_LEN) }
{
    put_bytes(out, at, Buffer::new().format(x).as_bytes())
}

// A word and a number.
pub fn put_named<I: Integer>(out: &mut [u8], at: usize, word: &[u8], x: I) -> usize
    requires { at + length word.now + I.MAX_STR_LEN ≤ length out.old }
    ensures { (Put at (word.now ++ I.text x) out.old result out.new)
        × (result ≤ at + length word.now + I.MAX_STR_LEN) }
{
    let next = put_bytes(out, at, word);
    put_number(out, next, x)
}
