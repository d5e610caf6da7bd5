// The text of the plan that a planner holds.
ghost use Rattle.std.specs.Prelude.{◌≡◌};
ghost use Rattle.cqf.specs.Form.{form_from, held_top};
ghost use Rattle.tables.specs.Lent.{plan_lent};
ghost use Rattle.tables.specs.Tables.{plan_of};
ghost use Rattle.text_writing.specs.Answer.{text_answer_of};
ghost use Rattle.text_writing.specs.Text.{WritesText};

use crate::held::write_text;
use plan::form_from;
use tables::{Lent, Planner, held_top};
use writing::SaveRefusal;

// For a planner that is lent column by column: in the form of its number; 20 where no plan is held, 13 where the buffer is too short for
// its text.
pub fn write_columns(form: u32, lent: Lent, out: &mut [u8]) -> Result<usize, SaveRefusal>
    ensures { WritesText (form_from form) (plan_lent (record lent.entry { top = held_top form lent.entry.hops.now lent.entry.top })) out.old (text_answer_of result) out.new }
{
    let top = held_top(form, lent.hops, lent.top);
    write_text(form_from(form), lent.upto(top), out)
}

// In the form that it was read in.
pub fn write_plan(planner: Planner, out: &mut [u8]) -> Result<usize, SaveRefusal>
    ensures { WritesText (form_from planner.form) (plan_of planner) out.old (text_answer_of result) out.new }
{
    write_columns(planner.form, planner.lend(), out)
}
