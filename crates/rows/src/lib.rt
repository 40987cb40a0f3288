// The rows of a decoded block, written to the slices that the caller lends.
#![tactic(auto)]

pub mod inputs;
pub mod renew;
pub mod scores;
pub mod words;
