// The plan in the tables, saved into a lent buffer.
ghost use Rattle.plan.specs.Answer.{form_of};
ghost use Rattle.tables.specs.Lent.{plan_lent};
ghost use Rattle.saving.specs.Outcome.{Saves};
ghost use Rattle.saving.specs.Answer.{save_of};

use crate::whole::{put_fields, saved_size};
use plan::Form;
use tables::{Lent, hold};
use writing::SaveRefusal;
use writing::room::has_room;

// The plan in these tables in strict order, in this form; 20 where they hold none, 13 where the buffer is too short for it.
pub fn save_tables(form: Form, lent: Lent, buffer: &mut [u8]) -> Result<usize, SaveRefusal>
    ensures { Saves (form_of form) (plan_lent lent.entry) buffer.old (save_of result) buffer.new }
{
    let Some(held) = hold(lent) else {
        return Err(SaveRefusal::NoPlan);
    };
    let needed = saved_size(held, form);
    if !has_room(buffer.len(), needed) {
        return Err(SaveRefusal::ShortBuffer(needed));
    }
    put_fields(held, form, buffer);
    Ok(needed)
}
