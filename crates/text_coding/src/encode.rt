// A text read, and the plan that it says written in its form. Where anything is refused the buffer stays as it was.
ghost use Rattle.std.specs.Prelude.{◌≡◌, true};
ghost use Rattle.cqf.specs.Plan.{valid_plan};
ghost use Rattle.plan.specs.Answer.{form_of};
ghost use Rattle.plan_text.specs.Line.{form_by};
ghost use Rattle.plan_text.specs.Text.{reads};
ghost use Rattle.tables.specs.Tables.{plan_of};
ghost use Rattle.text_coding.specs.Encode.{EncodesReading, Encodes};
ghost use Rattle.text_coding.specs.Answer.{encoded_of};

use crate::EncodeRefusal;
use plan::Form;
use plan_text::read_text;
use saving::save_tables;
use tables::{Planner, held_top};
use writing::SaveRefusal;

fn form_of(newer: bool) -> Form
    ensures { form_of result ≡ form_by newer }
{
    if newer { Form::Newer } else { Form::Older }
}

// The plan of a planner, written in this form. Not lent as `Held`: that it is valid is known of the reading, and asked here alone.
fn write_plan(form: Form, planner: &Planner, out: &mut [u8]) -> Result<usize, EncodeRefusal>
    requires { valid_plan (plan_of planner.now) ≡ true }
    ensures { EncodesReading (reads (form_of form) (plan_of planner.now)) out.old (encoded_of result) out.new }
{
    let top = held_top(planner.form, &planner.hops, planner.top);
    match save_tables(form, planner.lend().upto(top), out) {
        Ok(size) => Ok(size),
        Err(SaveRefusal::ShortBuffer(size)) => Err(EncodeRefusal::Short(size)),
        Err(SaveRefusal::NoPlan) => Err(EncodeRefusal::Short(0)),
    }
}

// The strict bytes of the plan that a text says, in the form that the text asks for.
pub fn encode_text(text: &[u8], out: &mut [u8]) -> Result<usize, EncodeRefusal>
    ensures { Encodes text.now out.old (encoded_of result) out.new }
{
    let outcome = read_text(text);
    match outcome.answer {
        Ok(plan) => write_plan(form_of(plan.newer), &outcome.planner, out),
        Err(refusal) => Err(EncodeRefusal::Refused(refusal)),
    }
}
