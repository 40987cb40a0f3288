// The list decoder: a call is refused, or served by the positions of its block and the rows that they lead to.
#![tactic(auto)]

mod call;
mod serve;

pub use call::{Decoded, decode};
