// The questions, over lent tables.
#![tactic(auto)]

mod ascend;
mod check;
mod demand;
mod descend;
mod downward;
mod failing;
mod flow_set;
mod highest;
mod iteration;
mod last_upto;
mod lean;
mod lean_seek;
mod nearest;
mod need;
mod need_at;
mod one_span;
mod port_demand;
mod port_search;
mod port_slack;
mod reprice;
mod rise;
mod run_end;
mod search;
mod seek;
mod set_demand;
mod span_count;
mod span_list;
mod upward;

pub use check::{CheckRefusal, check_tables};
pub use demand::flow_frames;
pub use failing::port_fails;
pub use iteration::{FixedPoint, FixedPointRefusal, fixed_point_tables};
pub use lean::lean_tables;
pub use nearest::{Nearest, NearestRefusal, nearest_tables};
pub use one_span::{SpanRecord, SpanRefusal, span_tables};
pub use port_demand::flow_bits;
pub use port_slack::{SlackRefusal, slack_tables};
pub use reprice::{RepriceRefusal, reprice_tables};
pub use search::{SearchRefusal, search_tables};
pub use seek::Goal;
pub use span_list::{SpansRefusal, spans, spans_tables};
