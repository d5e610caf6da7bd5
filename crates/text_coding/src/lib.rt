// A plan's text as the plan's strict bytes.
#![tactic(auto)]

use plan_text::TextRefusal;

mod encode; // encode.rt: a text read, and the plan written in its form

pub use encode::encode_text;

#[derive(Clone, Copy, Debug, PartialEq, Eq)]
pub enum EncodeRefusal {
    // The length needed.
    Short(usize),
    Refused(TextRefusal),
}
