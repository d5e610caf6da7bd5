// A plan's text: what its lines say, and the plan that they make.
#![tactic(auto)]

pub mod grammar; // grammar.rt: the words of lines, and why a text is refused
mod kinds; // kinds.rt: the kinds of lines, and their numbers
pub mod ranges; // ranges.rt: the range of each number
mod refusal; // refusal.rt: why a line and a text are refused
mod line; // line.rt: the numbers of a line
mod tests; // tests.rt: the first number that fails a test
mod ports; // ports.rt: the ports of a route
mod tested; // tested.rt: the second and the third test of a line
mod says; // says.rt: a line
mod store; // store.rt: its numbers into the columns
mod storing; // storing.rt: a line stored
mod again; // again.rt: whether a line says a thing again
mod draft; // draft.rt: a line taken into the plan that is being read
mod absent; // absent.rt: the first flow that names a port which is not in the plan
mod text; // text.rt: the end of a text
mod reading; // reading.rt: a whole text, into a blank draft
mod held; // held.rt: a text read into a planner

pub use held::{TextOutcome, read_text};
pub use refusal::TextRefusal;
pub use text::{MAX_TEXT, TextPlan};
