// A counting Bloom filter of names, and the summary that is made of it.
#![tactic(auto)]

mod counters;
mod laws;
mod receipt;
mod size;
mod summary;

pub use counters::CountingFilter;
pub use laws::filter_laws;
pub use receipt::Receipt;
pub use size::{FilterSize, OtherSize};
pub use summary::Summary;
