// The number of each answer.
#![tactic(auto)]

mod number; // number.rt: the number of each answer, 0 for a result
mod refusals; // refusals.rt: the number of each refusal

pub use number::{
    ABSENT_FLOW, BAD_DURATION, NO_PLAN, NOT_CROSSED, SHORT_BUFFER, check_number, collect_number,
    convert_number, fixed_point_number, gates_number, least_number, load_number,
    margin_safe_number, nearest_number, place_number, reprice_number, save_number, slack_number,
    span_number, spans_number,
};
