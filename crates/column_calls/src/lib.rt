// The calls over tables that are lent column by column: the questions, the searches, and what is written of a plan.
#![tactic(auto)]

mod asked;
mod forms;
mod lean;
mod nearest;
mod reprice;
mod searches;
mod spans;
mod writes;

pub use asked::{check_columns, fixed_point_columns, slack_columns};
pub use forms::formed;
pub use lean::{lean_least_columns, lean_margin_safe_columns};
pub use nearest::nearest_columns;
pub use reprice::reprice_columns;
pub use searches::{least_columns, margin_safe_columns};
pub use spans::spans_columns;
pub use writes::{gates_columns, save_columns, span_columns};
