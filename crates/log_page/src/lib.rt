// The page for the shift log, record by record: how many bytes of a record are asked for, and what is printed for it.
#![tactic(auto)]

mod reading;
mod steps;

pub use reading::needed;
pub use steps::{LogStep, Totals, write_step};
