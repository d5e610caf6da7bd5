// The text of a plan, written into a lent buffer line by line. What the buffer has no room for is left out, so that the same functions
// write a text and only count its bytes.
#![tactic(auto)]

mod number; // number.rt: bytes, words and numbers
mod word; // word.rt: the words of a line
mod port; // port.rt: the lines of the ports
mod flow; // flow.rt: the lines of the flows
mod whole; // whole.rt: all lines
mod held; // held.rt: the plan in the tables
mod planned; // planned.rt: the plan that a planner holds

pub use held::write_text;
pub use planned::{write_columns, write_plan};

// The most bytes of a text.
pub const MAX_TEXT: usize = 65_536;
