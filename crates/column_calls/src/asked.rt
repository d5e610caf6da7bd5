// The questions over tables that are lent column by column, with the top that they have by their form.
ghost use Rattle.std.specs.Prelude.{◌≡◌};
ghost use Rattle.questions.specs.Answer.{check_of, slack_of, fixed_point_of};
ghost use Rattle.questions.specs.Outcome.{check_answer, slack_answer};
ghost use Rattle.questions.specs.FixedPoint.{fixed_point_answer};
ghost use Rattle.sequences.specs.Meaning.{CheckMeans};
ghost use Rattle.sequences.specs.FixedPointMeaning.{FixedPointMeans};
ghost use Rattle.column_calls.specs.Formed.{plan_formed};

use crate::forms::formed;
use questions::{
    CheckRefusal, FixedPoint, FixedPointRefusal, SlackRefusal, check_tables, fixed_point_tables,
    slack_tables,
};
use tables::Lent;

// Is this duration admissible? What the answer means is demand 3: after every sequence of calls that leads to these tables.
pub fn check_columns(form: u32, lent: Lent, duration: u64) -> Result<(), CheckRefusal>
    ensures answers { check_of result ≡ check_answer (plan_formed form lent.entry) duration }
    ensures means { CheckMeans (plan_formed form lent.entry) duration (check_of result) }
{
    check_tables(formed(form, lent), duration)
}

// What is the slack of this port?
pub fn slack_columns(form: u32, lent: Lent, port: u64, duration: u64) -> Result<i64, SlackRefusal>
    ensures { slack_of result ≡ slack_answer (plan_formed form lent.entry) port duration }
{
    slack_tables(formed(form, lent), port, duration)
}

// The least admissible duration from a start on, by at most so many steps; 26 where they end before.
pub fn fixed_point_columns(
    form: u32,
    lent: Lent,
    start: u64,
    steps: u64,
) -> Result<FixedPoint, FixedPointRefusal>
    ensures answers { fixed_point_of result ≡ fixed_point_answer (plan_formed form lent.entry) start steps }
    ensures means { FixedPointMeans (plan_formed form lent.entry) start steps (fixed_point_of result) }
{
    fixed_point_tables(formed(form, lent), start, steps)
}
