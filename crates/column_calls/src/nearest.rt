// The nearest admissible durations, of tables that are lent column by column.
ghost use Rattle.std.specs.Prelude.{◌≡◌};
ghost use Rattle.questions.specs.Nearest.{nearest_answer, nearest_of};
ghost use Rattle.sequences.specs.NearestMeaning.{NearestMeans};
ghost use Rattle.column_calls.specs.Formed.{plan_formed};

use crate::forms::formed;
use questions::{Nearest, NearestRefusal, nearest_tables};
use tables::Lent;

// The largest admissible duration up to a given one, and the least from it on; nothing where there is none.
pub fn nearest_columns(form: u32, lent: Lent, duration: u64) -> Result<Nearest, NearestRefusal>
    ensures answers { nearest_of result ≡ nearest_answer (plan_formed form lent.entry) duration }
    ensures means { NearestMeans (plan_formed form lent.entry) duration (nearest_of result) }
{
    nearest_tables(formed(form, lent), duration)
}
