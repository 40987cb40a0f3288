// Rows of bits in bytes, from the low end: taken from them and put into them. From eight positions on a row fills its bytes, and a row of
// four positions has a byte of its own; so rows are bytes of eight bits each, or of four.
#![tactic(auto)]

mod packing;
mod unpacking;

pub use packing::{put_packed, some_not_bit};
pub use unpacking::{put_unpacked, some_high};
