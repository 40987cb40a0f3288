// The parts of a job record: where they lie, and what its fields and soft values say.
#![tactic(auto)]

mod layout;
mod record;
mod values;

pub use layout::{Layout, map_at, map_end};
pub use record::JobRecord;
pub use values::soft_value;
