// The calls that take the planner by value: the questions, the searches, and what is written of a plan.
#![tactic(auto)]

mod calls;
mod lean;
mod neighbours;
mod usable;

pub use calls::{check, fixed_point, gates, least, margin_safe, reprice, save, slack};
pub use lean::{lean_least, lean_margin_safe};
pub use neighbours::nearest;
pub use usable::{span, spans};
