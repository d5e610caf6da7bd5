// What goes into a lent list, of tables that are lent column by column: the slacks with another frame length.
ghost use Rattle.std.specs.Prelude.{◌≡◌};
ghost use Rattle.questions.specs.Answer.{reprice_of};
ghost use Rattle.questions.specs.Reprice.{reprice_answer, reprice_leaves};
ghost use Rattle.column_calls.specs.Formed.{plan_formed};

use crate::forms::formed;
use questions::{RepriceRefusal, reprice_tables};
use tables::Lent;

// The slacks along this flow's route if its frames had this length, into the list.
pub fn reprice_columns(
    form: u32,
    lent: Lent,
    duration: u64,
    flow: u64,
    length: u64,
    out: &mut [i64],
) -> Result<(), RepriceRefusal>
    ensures { (reprice_of result ≡ reprice_answer (plan_formed form lent.entry) duration flow length out.old)
        × (out.new ≡ reprice_leaves (plan_formed form lent.entry) duration flow length out.old) }
{
    reprice_tables(formed(form, lent), duration, flow, length, out)
}
