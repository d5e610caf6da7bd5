// The calls: the planner by value, its tables lent column by column.
ghost use Rattle.std.specs.Prelude.{◌≡◌};
ghost use Rattle.cqf.specs.Form.{form_from};
ghost use Rattle.tables.specs.Tables.{plan_of};
ghost use Rattle.questions.specs.Answer.{check_of, slack_of, least_of, margin_safe_of, fixed_point_of, reprice_of};
ghost use Rattle.sequences.specs.Meaning.{CheckMeans};
ghost use Rattle.sequences.specs.FixedPointMeaning.{FixedPointMeans};
ghost use Rattle.sequences.specs.GatesMeaning.{GatesMean};
ghost use Rattle.questions.specs.Outcome.{check_answer, slack_answer, least_answer, least_leaves, margin_safe_answer, margin_safe_leaves};
ghost use Rattle.questions.specs.FixedPoint.{fixed_point_answer};
ghost use Rattle.questions.specs.Reprice.{reprice_answer, reprice_leaves};
ghost use Rattle.saving.specs.Save.{save_answer, save_leaves};
ghost use Rattle.gate_writing.specs.Gates.{gates_answer, gates_leaves};
ghost use Rattle.saving.specs.Answer.{save_of};
ghost use Rattle.gate_writing.specs.Answer.{gates_of};

use column_calls::{
    check_columns, fixed_point_columns, gates_columns, least_columns, margin_safe_columns,
    reprice_columns, save_columns, slack_columns,
};
use gate_writing::GatesRefusal;
use questions::{
    CheckRefusal, FixedPoint, FixedPointRefusal, RepriceRefusal, SearchRefusal, SlackRefusal,
};
use tables::Planner;
use writing::SaveRefusal;

// Is this duration admissible? What the answer means is demand 3: after every sequence of calls that leads to this planner.
pub fn check(planner: Planner, duration: u64) -> Result<(), CheckRefusal>
    ensures answers { check_of result ≡ check_answer (plan_of planner) duration }
    ensures means { CheckMeans (plan_of planner) duration (check_of result) }
{
    check_columns(planner.form, planner.lend(), duration)
}

// What is the slack of this port?
pub fn slack(planner: Planner, port: u64, duration: u64) -> Result<i64, SlackRefusal>
    ensures { slack_of result ≡ slack_answer (plan_of planner) port duration }
{
    slack_columns(planner.form, planner.lend(), port, duration)
}

// The least admissible duration; 22 where there is none.
pub fn least(planner: Planner, scratch: &mut [u64]) -> Result<u64, SearchRefusal>
    ensures { (least_of result ≡ least_answer (plan_of planner) scratch.old)
        × (scratch.new ≡ least_leaves (plan_of planner) scratch.old) }
{
    least_columns(planner.form, planner.lend(), scratch)
}

// The margin-safe duration; 23 where there is none.
pub fn margin_safe(planner: Planner, scratch: &mut [u64]) -> Result<u64, SearchRefusal>
    ensures { (margin_safe_of result ≡ margin_safe_answer (plan_of planner) scratch.old)
        × (scratch.new ≡ margin_safe_leaves (plan_of planner) scratch.old) }
{
    margin_safe_columns(planner.form, planner.lend(), scratch)
}

// The least admissible duration from a start on, by at most so many steps; 26 where they end before. What the answer means: the
// steps are the iteration's own length, which has a bound, and continued from where it stopped it gives what a single one gives.
pub fn fixed_point(
    planner: Planner,
    start: u64,
    steps: u64,
) -> Result<FixedPoint, FixedPointRefusal>
    ensures answers { fixed_point_of result ≡ fixed_point_answer (plan_of planner) start steps }
    ensures means { FixedPointMeans (plan_of planner) start steps (fixed_point_of result) }
{
    fixed_point_columns(planner.form, planner.lend(), start, steps)
}

// What if the frames of this flow had this length? The slacks along its route go into the list, port n at position n - 1; 11 where the
// list is under 64 numbers, 17 where the length is out of range, 29 where the flow is absent.
pub fn reprice(
    planner: Planner,
    duration: u64,
    flow: u64,
    length: u64,
    out: &mut [i64],
) -> Result<(), RepriceRefusal>
    ensures { (reprice_of result ≡ reprice_answer (plan_of planner) duration flow length out.old) × (out.new ≡ reprice_leaves (plan_of planner) duration flow length out.old) }
{
    reprice_columns(planner.form, planner.lend(), duration, flow, length, out)
}

// The held plan in strict order, in the form that it was read in, written into the buffer; 20 where none is held, 13 where the buffer is too short for it.
pub fn save(planner: Planner, buffer: &mut [u8]) -> Result<usize, SaveRefusal>
    ensures { (save_of result ≡ save_answer (form_from planner.form) (plan_of planner) buffer.old)
        × (buffer.new ≡ save_leaves (form_from planner.form) (plan_of planner) buffer.old) }
{
    save_columns(planner.form, planner.lend(), buffer)
}

// The gate control list of a duration for two queues, written into the buffer; 20, 10 and 21 as from `check`, 18 where the queues are
// not two of the eight, 13 where the buffer is too short for the list. What was written plays two cycles of the plan held.
pub fn gates(
    planner: Planner,
    duration: u64,
    even: u64,
    odd: u64,
    buffer: &mut [u8],
) -> Result<usize, GatesRefusal>
    ensures answers { (gates_of result ≡ gates_answer (plan_of planner) duration even odd buffer.old)
        × (buffer.new ≡ gates_leaves (plan_of planner) duration even odd buffer.old) }
    ensures means { GatesMean (plan_of planner) duration even odd buffer.old buffer.new (gates_of result) }
{
    gates_columns(planner.form, planner.lend(), duration, even, odd, buffer)
}
