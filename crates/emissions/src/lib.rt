// The bad emission of a port that fails: what each flow sends in it, over lent tables.
#![tactic(auto)]

mod burst;
mod first;
mod frames;
mod hop;
mod over;
mod queued;
mod unsent;

pub use burst::{Burst, BurstRefusal, burst_tables};
pub use unsent::{Unsent, UnsentRefusal, unsent_tables};
