// The positions of a block, one after the other, for all live paths together, in tables that the caller lends.
#![tactic(auto)]

mod block;
mod history;
mod own;
mod position;

pub use block::positions;
