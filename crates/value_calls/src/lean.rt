// The two searches over a scratch of one number.
ghost use Rattle.std.specs.Prelude.{◌≡◌};
ghost use Rattle.tables.specs.Tables.{plan_of};
ghost use Rattle.questions.specs.Answer.{least_of, margin_safe_of};
ghost use Rattle.questions.specs.Lean.{lean_least_answer, lean_least_leaves, lean_margin_safe_answer, lean_margin_safe_leaves};

use column_calls::{lean_least_columns, lean_margin_safe_columns};
use questions::SearchRefusal;
use tables::Planner;

// The least admissible duration; 22 where there is none, 11 where the scratch is empty.
pub fn lean_least(planner: Planner, scratch: &mut [u64]) -> Result<u64, SearchRefusal>
    ensures { (least_of result ≡ lean_least_answer (plan_of planner) scratch.old)
        × (scratch.new ≡ lean_least_leaves (plan_of planner) scratch.old) }
{
    lean_least_columns(planner.form, planner.lend(), scratch)
}

// The margin-safe duration; 23 where there is none, 11 where the scratch is empty.
pub fn lean_margin_safe(planner: Planner, scratch: &mut [u64]) -> Result<u64, SearchRefusal>
    ensures { (margin_safe_of result ≡ lean_margin_safe_answer (plan_of planner) scratch.old)
        × (scratch.new ≡ lean_margin_safe_leaves (plan_of planner) scratch.old) }
{
    lean_margin_safe_columns(planner.form, planner.lend(), scratch)
}
