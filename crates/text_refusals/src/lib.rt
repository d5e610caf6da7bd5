// The words in which a plan's text is refused.
#![tactic(auto)]

mod name; // name.rt: the words for a number of a text
mod refusal; // refusal.rt: the words of a refusal

pub use refusal::Told;
