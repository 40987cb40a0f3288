// The correlations of code words whose payloads stand in a row, block by block.
#![tactic(auto)]

mod block;
mod generators;
mod payload_bits;

pub use block::correlate_block;
pub use generators::find_columns;
pub use payload_bits::put_payload;
