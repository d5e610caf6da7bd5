// What is written of tables that are lent column by column: the plan held, and a gate control list; and one span of it.
ghost use Rattle.std.specs.Prelude.{◌≡◌};
ghost use Rattle.cqf.specs.Form.{form_from};
ghost use Rattle.questions.specs.Spans.{span_answer};
ghost use Rattle.questions.specs.SpanAnswer.{span_answer_of};
ghost use Rattle.saving.specs.Save.{save_answer, save_leaves};
ghost use Rattle.saving.specs.Answer.{save_of};
ghost use Rattle.gate_writing.specs.Gates.{gates_answer, gates_leaves};
ghost use Rattle.gate_writing.specs.Answer.{gates_of};
ghost use Rattle.sequences.specs.GatesMeaning.{GatesMean};
ghost use Rattle.sequences.specs.SpansMeaning.{SpanMeans};
ghost use Rattle.column_calls.specs.Formed.{plan_formed};

use crate::forms::formed;
use gate_writing::{GatesRefusal, gates_tables};
use plan::form_from;
use questions::{SpanRecord, SpanRefusal, span_tables};
use saving::save_tables;
use tables::Lent;
use writing::SaveRefusal;

// The first span that ends at a duration or later; 25 where there is none.
pub fn span_columns(form: u32, lent: Lent, duration: u64) -> Result<SpanRecord, SpanRefusal>
    ensures answers { span_answer_of result ≡ span_answer (plan_formed form lent.entry) duration }
    ensures means { SpanMeans (plan_formed form lent.entry) duration (span_answer_of result) }
{
    span_tables(formed(form, lent), duration)
}

// The plan held in strict order, in the form of its number, into the buffer; 20 where none is held, 13 where the buffer is too short.
pub fn save_columns(form: u32, lent: Lent, buffer: &mut [u8]) -> Result<usize, SaveRefusal>
    ensures { (save_of result ≡ save_answer (form_from form) (plan_formed form lent.entry) buffer.old)
        × (buffer.new ≡ save_leaves (form_from form) (plan_formed form lent.entry) buffer.old) }
{
    save_tables(form_from(form), formed(form, lent), buffer)
}

// The gate control list of a duration for two queues, into the buffer.
pub fn gates_columns(
    form: u32,
    lent: Lent,
    duration: u64,
    even: u64,
    odd: u64,
    buffer: &mut [u8],
) -> Result<usize, GatesRefusal>
    ensures answers { (gates_of result ≡ gates_answer (plan_formed form lent.entry) duration even odd buffer.old)
        × (buffer.new ≡ gates_leaves (plan_formed form lent.entry) duration even odd buffer.old) }
    ensures means { GatesMean (plan_formed form lent.entry) duration even odd buffer.old buffer.new (gates_of result) }
{
    gates_tables(formed(form, lent), duration, even, odd, buffer)
}
