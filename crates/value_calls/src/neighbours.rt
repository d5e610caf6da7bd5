// The nearest admissible durations.
ghost use Rattle.std.specs.Prelude.{◌≡◌};
ghost use Rattle.tables.specs.Tables.{plan_of};
ghost use Rattle.questions.specs.Nearest.{nearest_answer, nearest_of};
ghost use Rattle.sequences.specs.NearestMeaning.{NearestMeans};

use column_calls::nearest_columns;
use questions::{Nearest, NearestRefusal};
use tables::Planner;

// The largest admissible duration up to a given one, and the least from it on; nothing where there is none. What the answer means is
// said of every sequence of calls that leads to this planner.
pub fn nearest(planner: Planner, duration: u64) -> Result<Nearest, NearestRefusal>
    ensures answers { nearest_of result ≡ nearest_answer (plan_of planner) duration }
    ensures means { NearestMeans (plan_of planner) duration (nearest_of result) }
{
    nearest_columns(planner.form, planner.lend(), duration)
}
