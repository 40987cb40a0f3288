// The parts of a result record: where they lie, and what they say.
#![tactic(auto)]

mod layout;
mod record;
mod rising;

pub use layout::{Layout, length_of, scores_at};
pub use record::ResultRecord;
pub use rising::scores_rise;
