// Bits and numbers put into a buffer as text.
#![tactic(auto)]

mod bits;
mod decimals;

pub use bits::put_bits;
pub use decimals::{put_named, put_number};
