// A code: n, the refusals that every call on it has, k, the flags of its frozen map, the bit of a prefix at a frozen position, and the
// test of the bits given with it.
#![tactic(auto)]

mod bits;
mod flags;
mod pairs;
mod payload;
mod shape;
mod sums;

pub use bits::check_bits;
pub use flags::flag;
pub use pairs::named;
pub use shape::{Code, size};
pub use sums::{frozen_bit, run_end};
