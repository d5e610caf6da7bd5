// The first calls: the planner that holds no plan, the load, and the four questions.
#![tactic(auto)]

pub use loading::{LoadOutcome, Loaded, load};
pub use plan::{Fault, Refusal};
pub use questions::{CheckRefusal, SearchRefusal, SlackRefusal};
pub use tables::{Planner, empty};
pub use value_calls::{check, least, margin_safe, slack};
