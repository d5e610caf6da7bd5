// The searches over a scratch of one number, of tables that are lent column by column: each goal has a call of its own.
ghost use Rattle.std.specs.Prelude.{◌≡◌};
ghost use Rattle.questions.specs.Answer.{least_of, margin_safe_of};
ghost use Rattle.questions.specs.Lean.{lean_least_answer, lean_least_leaves, lean_margin_safe_answer, lean_margin_safe_leaves};
ghost use Rattle.column_calls.specs.Formed.{plan_formed};

use crate::forms::formed;
use questions::{Goal, SearchRefusal, lean_tables};
use tables::Lent;

// The least admissible duration over a scratch of one number; 11 where it is empty.
pub fn lean_least_columns(form: u32, lent: Lent, scratch: &mut [u64]) -> Result<u64, SearchRefusal>
    ensures { (least_of result ≡ lean_least_answer (plan_formed form lent.entry) scratch.old)
        × (scratch.new ≡ lean_least_leaves (plan_formed form lent.entry) scratch.old) }
{
    lean_tables(Goal::Least, formed(form, lent), scratch)
}

// The margin-safe duration over a scratch of one number; 11 where it is empty.
pub fn lean_margin_safe_columns(
    form: u32,
    lent: Lent,
    scratch: &mut [u64],
) -> Result<u64, SearchRefusal>
    ensures { (margin_safe_of result ≡ lean_margin_safe_answer (plan_formed form lent.entry) scratch.old)
        × (scratch.new ≡ lean_margin_safe_leaves (plan_formed form lent.entry) scratch.old) }
{
    lean_tables(Goal::MarginSafe, formed(form, lent), scratch)
}
