// What the writers of job and result records share: fields that may be left out, and the length of what was written as a host is told it.
#![tactic(auto)]

mod fields;
mod length;

pub use fields::{bit_unless, put_unless};
pub use length::RecordLength;
