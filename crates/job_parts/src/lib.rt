// The parts of a job record, put into a buffer: each optional field only where its value is not the one that absence means.
#![tactic(auto)]

mod bits;
mod options;
mod parts;
mod soft;

pub use bits::{fields_byte, pair_bit};
pub use options::Options;
pub use parts::{put_head, put_rest};
