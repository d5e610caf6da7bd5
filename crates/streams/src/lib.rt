// The programs' input, what they print that is no result, and a text by its number.
#![tactic(auto)]

mod choice; // choice.rt: one of several texts
mod input; // input.rt: an input read to its end
mod output; // output.rt: what stands on standard error

pub use choice::say_choice;
pub use input::read_input;
pub use output::{Unheld, complain, finish};
