// All spans of tables that are lent column by column.
ghost use Rattle.std.specs.Prelude.{◌≡◌, length};
ghost use Rattle.questions.specs.Spans.{spans_answer, spans_leaves};
ghost use Rattle.questions.specs.SpanAnswer.{spans_answer_of};
ghost use Rattle.sequences.specs.SpansMeaning.{SpansMean};
ghost use Rattle.column_calls.specs.Formed.{plan_formed};

use crate::forms::formed;
use questions::{SpanRecord, SpansRefusal, spans_tables};
use tables::Lent;

// All spans, rising, into the first records of a list; 13 with how many there are where it is shorter, and then it is left as it was.
pub fn spans_columns(form: u32, lent: Lent, list: &mut [SpanRecord]) -> Result<u64, SpansRefusal>
    ensures answers { (spans_answer_of result ≡ spans_answer (plan_formed form lent.entry) (length list.old))
        × (list.new ≡ spans_leaves (plan_formed form lent.entry) list.old) }
    ensures means { SpansMean (plan_formed form lent.entry) list.old list.new (spans_answer_of result) }
{
    spans_tables(formed(form, lent), list)
}
