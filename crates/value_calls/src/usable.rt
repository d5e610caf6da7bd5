// The usable durations: one span, and all of them.
ghost use Rattle.std.specs.Prelude.{◌≡◌, length};
ghost use Rattle.tables.specs.Tables.{plan_of};
ghost use Rattle.questions.specs.Spans.{span_answer, spans_answer, spans_leaves};
ghost use Rattle.questions.specs.SpanAnswer.{span_answer_of, spans_answer_of};
ghost use Rattle.sequences.specs.SpansMeaning.{SpanMeans, SpansMean};

use column_calls::{span_columns, spans_columns};
use questions::{SpanRecord, SpanRefusal, SpansRefusal};
use tables::Planner;

// The first span that ends at a duration or later; 25 where there is none. What the answer means is said of every sequence of calls
// that leads to this planner.
pub fn span(planner: Planner, duration: u64) -> Result<SpanRecord, SpanRefusal>
    ensures answers { span_answer_of result ≡ span_answer (plan_of planner) duration }
    ensures means { SpanMeans (plan_of planner) duration (span_answer_of result) }
{
    span_columns(planner.form, planner.lend(), duration)
}

// All spans, rising, into the first records of a list; 13 with how many there are where it is shorter. What the answer and the list
// mean is said of every sequence of calls that leads to this planner.
pub fn spans(planner: Planner, list: &mut [SpanRecord]) -> Result<u64, SpansRefusal>
    ensures answers { (spans_answer_of result ≡ spans_answer (plan_of planner) (length list.old))
        × (list.new ≡ spans_leaves (plan_of planner) list.old) }
    ensures means { SpansMean (plan_of planner) list.old list.new (spans_answer_of result) }
{
    spans_columns(planner.form, planner.lend(), list)
}
