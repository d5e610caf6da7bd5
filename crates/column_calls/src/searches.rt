// The searches over tables that are lent column by column: each goal has a call of its own, in the documents and for C.
ghost use Rattle.std.specs.Prelude.{◌≡◌};
ghost use Rattle.questions.specs.Answer.{least_of, margin_safe_of};
ghost use Rattle.questions.specs.Outcome.{least_answer, least_leaves, margin_safe_answer, margin_safe_leaves};
ghost use Rattle.column_calls.specs.Formed.{plan_formed};

use crate::forms::formed;
use questions::{Goal, SearchRefusal, search_tables};
use tables::Lent;

// The least admissible duration; 22 where there is none.
pub fn least_columns(form: u32, lent: Lent, scratch: &mut [u64]) -> Result<u64, SearchRefusal>
    ensures { (least_of result ≡ least_answer (plan_formed form lent.entry) scratch.old)
        × (scratch.new ≡ least_leaves (plan_formed form lent.entry) scratch.old) }
{
    search_tables(Goal::Least, formed(form, lent), scratch)
}

// The margin-safe duration; 23 where there is none.
pub fn margin_safe_columns(form: u32, lent: Lent, scratch: &mut [u64]) -> Result<u64, SearchRefusal>
    ensures { (margin_safe_of result ≡ margin_safe_answer (plan_formed form lent.entry) scratch.old)
        × (scratch.new ≡ margin_safe_leaves (plan_formed form lent.entry) scratch.old) }
{
    search_tables(Goal::MarginSafe, formed(form, lent), scratch)
}
