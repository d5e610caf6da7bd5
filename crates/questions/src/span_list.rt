// All spans, into a lent list of records.
ghost use Rattle.std.specs.Prelude.{◌≡◌, length};
ghost use Rattle.tables.specs.Lent.{plan_lent};
ghost use Rattle.tables.specs.Tables.{plan_of};
ghost use Rattle.questions.specs.Spans.{spans_answer, spans_leaves};
ghost use Rattle.questions.specs.SpanAnswer.{spans_answer_of};

use super::one_span::{SpanRecord, span_from};
use super::span_count::count_spans;
use tables::{Lent, Planner, held_top, hold};

#[derive(Clone, Copy)]
pub enum SpansRefusal {
    NoPlan,
    ShortList { count: u64 },
}

// All spans, rising, into the first records of a list, and how many they are; a list that is shorter is left as it was.
pub fn spans_tables(lent: Lent, list: &mut [SpanRecord]) -> Result<u64, SpansRefusal>
    ensures { (spans_answer_of result ≡ spans_answer (plan_lent lent.entry) (length list.old))
        × (list.new ≡ spans_leaves (plan_lent lent.entry) list.old) }
{
    let Some(held) = hold(lent) else {
        return Err(SpansRefusal::NoPlan);
    };
    let size = list.len() as u64;
    let count = count_spans(held);
    if size < count {
        return Err(SpansRefusal::ShortList { count });
    }
    let mut from: u64 = 1;
    for i in 0..count as usize {
        let next = span_from(held, from);
        let span = next.unwrap();
        list[i] = span;
        from = span.last + 1;
    }
    Ok(count)
}

// The same of a planner, by the top that its form allows. It is taken by value, so that what is lent is the list alone.
pub fn spans(planner: Planner, list: &mut [SpanRecord]) -> Result<u64, SpansRefusal>
    ensures { (spans_answer_of result ≡ spans_answer (plan_of planner) (length list.old))
        × (list.new ≡ spans_leaves (plan_of planner) list.old) }
{
    let top = held_top(planner.form, &planner.hops, planner.top);
    spans_tables(planner.lend().upto(top), list)
}
