// What a program writes for a record, as lines in a buffer: a refusal, or a line for the frame and one for each row.
#![tactic(auto)]

mod lines;
mod listing;

pub use lines::write_refused;
pub use listing::write_rows;
