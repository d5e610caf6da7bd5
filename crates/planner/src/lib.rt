// The cycle planner: the held plan, the load, and the questions; batches of plans; and the converters of plans.
#![tactic(auto)]

pub use answer_numbers::{
    check_number, collect_number, convert_number, fixed_point_number, gates_number, least_number,
    load_number, margin_safe_number, nearest_number, place_number, reprice_number, save_number,
    slack_number, span_number, spans_number,
};
pub use batching::{
    Batch, CollectOutcome, CollectRefusal, PlaceOutcome, PlaceRefusal, ServeOutcome, collect,
    empty_batch, place, serve,
};
pub use column_calls::{
    check_columns, fixed_point_columns, gates_columns, lean_least_columns,
    lean_margin_safe_columns, least_columns, margin_safe_columns, nearest_columns, reprice_columns,
    save_columns, slack_columns, span_columns, spans_columns,
};
pub use converting::{ConvertRefusal, downgrade, upgrade};
pub use first_calls::{
    CheckRefusal, Fault, LoadOutcome, Loaded, Planner, Refusal, SearchRefusal, SlackRefusal, check,
    empty, least, load, margin_safe, slack,
};
pub use gate_writing::GatesRefusal;
pub use loading::{load_columns, load_strict, read_plan};
pub use plan::fault_number;
pub use questions::{
    FixedPoint, FixedPointRefusal, Nearest, NearestRefusal, RepriceRefusal, SpanRecord,
    SpanRefusal, SpansRefusal,
};
pub use tables::Lent;
pub use value_calls::{
    fixed_point, gates, lean_least, lean_margin_safe, nearest, reprice, save, span, spans,
};
pub use writing::SaveRefusal;
