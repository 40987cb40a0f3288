// The lines of the shift log, each of 43 columns and a line feed.
#![tactic(auto)]

mod counts;
mod lines;
mod scores;

pub use lines::{put_last, put_refused, put_result};
