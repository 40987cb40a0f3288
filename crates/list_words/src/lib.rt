// Every code word that correlates with the soft values at a mark or above.
#![tactic(auto)]

mod call;
mod check;
mod marks;
mod passes;
mod rows_kept;

pub use call::list_words;
