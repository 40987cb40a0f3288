// The numbers of a line, read into slices.
ghost use Rattle.std.specs.Prelude.{◌≤◌, length};

use crate::lines::{Read, next, word_end};

// A label with a number behind each, as many as `fields` has places; 0 where a label has none. Returns the place behind them.
pub(crate) fn read_fields(line: &[u8], from: usize, fields: &mut [u32]) -> usize {
    let mut at = from;
    for field in fields.iter_mut() {
        let label = word_end(line, at);
        let x = next(line, label).unwrap_or(Read {
            value: 0,
            at: label,
        });
        *field = x.value;
        at = x.at;
    }
    at
}

// How many numbers a list has, and the place behind it.
#[derive(Clone, Copy)]
pub(crate) struct List {
    pub len: usize,
    pub at: usize,
}

pub(crate) fn byte_of(x: u32) -> u8 {
    (x % 256) as u8
}

// The number of 16 bits that stands for a soft value.
pub(crate) fn soft_of(x: u32) -> i16 {
    ((x % 65536) as u16).cast_signed()
}

// A label and the items behind it, each made of its number, as many as there is room for.
pub(crate) fn read_list<T: Copy, F: Fn(u32) -> T>(
    line: &[u8],
    from: usize,
    items: &mut [T],
    of: F,
) -> List
    requires { F.IsAlwaysCallable of }
    ensures { result.len ≤ length items.old }
{
    let mut at = word_end(line, from);
    for i in 0..items.len() {
        let Some(x) = next(line, at) else {
            return List { len: i, at };
        };
        items[i] = of(x.value);
        at = x.at;
    }
    List {
        len: items.len(),
        at,
    }
}
