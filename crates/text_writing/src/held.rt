// The text of the plan in the tables, written into a lent buffer.
ghost use Rattle.plan.specs.Answer.{form_of};
ghost use Rattle.tables.specs.Lent.{plan_lent};
ghost use Rattle.text_writing.specs.Answer.{text_answer_of};
ghost use Rattle.text_writing.specs.Text.{WritesText};

use crate::whole::put_text;
use plan::Form;
use tables::{Lent, hold};
use writing::SaveRefusal;
use writing::room::has_room;

// The text of the plan in these tables, in this form; 20 where they hold none, 13 where the buffer is too short for it.
pub fn write_text(form: Form, lent: Lent, out: &mut [u8]) -> Result<usize, SaveRefusal>
    ensures { WritesText (form_of form) (plan_lent lent.entry) out.old (text_answer_of result) out.new }
{
    let Some(held) = hold(lent) else {
        return Err(SaveRefusal::NoPlan);
    };
    // Counted before a byte is written: of what goes into one byte, nearly all is left out.
    let mut none = [0; 1];
    let needed = put_text(form, held, &mut none);
    if !has_room(out.len(), needed) {
        return Err(SaveRefusal::ShortBuffer(needed));
    }
    put_text(form, held, out);
    Ok(needed)
}
