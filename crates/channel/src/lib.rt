// Queues between houses, which may lose, double and reorder messages.
#![tactic(auto)]

mod channels;
mod checks;
mod cycle;
mod dropping;
mod laws;
mod memory;
mod queue;
mod refusals;
mod repeating;
mod slot;
mod turning;

pub use channels::Channel;
pub use checks::room;
pub use dropping::Dropping;
pub use laws::every_nth_is_due;
pub use memory::{SLOTS, queue_memory};
pub use queue::Queue;
pub use refusals::ChannelFault;
pub use repeating::Repeating;
pub use slot::Slot;
pub use turning::Turning;
