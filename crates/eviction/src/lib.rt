// Which record leaves a full house first: the policies that rank records, and the heap of their ranks.
#![tactic(auto)]

mod evict;
mod greedy_dual_size;
mod heap;
mod lru;
mod policy;
#[cfg(test)]
mod tests;

pub use evict::evict_least;
pub use greedy_dual_size::{GreedyDualSize, Worth};
pub use heap::{Entry, EvictionHeap, Full};
pub use lru::{Lru, Stamp};
pub use policy::Policy;
