// Reads a plan from standard input and looks for its least duration in portions of steps; prints after each portion the duration
// reached, and at the end the least duration, or 22 with the ports that fail at top, and the steps used.
#![tactic(auto)]

ghost use Rattle.std.specs.Prelude.{◌≡◌, ◌+◌};
ghost use Rattle.tables.specs.Tables.{plan_of};
ghost use Rattle.questions.specs.Answer.{fixed_point_of};
ghost use Rattle.questions.specs.FixedPoint.{fixed_point_answer};
ghost use Rattle.progress.specs.Portion.{portion_steps, Reached};

use console::{HeldPlan, held_plan};
use planner::{FixedPoint, FixedPointRefusal, Planner};
use std::io;

// The steps of a portion.
const PORTION: u64 = 16;

// One portion more: the answer is that of a single call with the steps so far and these.
fn portion(planner: Planner, at: u64, used: u64) -> Result<FixedPoint, FixedPointRefusal>
    requires { Reached (plan_of planner) at used }
    ensures { fixed_point_of result ≡ fixed_point_answer (plan_of planner) 1 (used + portion_steps) }
{
    match planner::fixed_point(planner, at, PORTION) {
        Ok(FixedPoint { duration, steps }) => Ok(FixedPoint {
            duration,
            steps: used + steps,
        }),
        Err(FixedPointRefusal::Failing { port, count, steps }) => Err(FixedPointRefusal::Failing {
            port,
            count,
            steps: used + steps,
        }),
        Err(FixedPointRefusal::Unfinished { duration, steps }) => {
            Err(FixedPointRefusal::Unfinished {
                duration,
                steps: used + steps,
            })
        }
        Err(FixedPointRefusal::NoPlan) => Err(FixedPointRefusal::NoPlan),
        Err(FixedPointRefusal::BadStart) => Err(FixedPointRefusal::BadStart),
    }
}

// As batch says a collected answer, of another error.
fn say_end(out: &impl Print, answer: Result<FixedPoint, FixedPointRefusal>) -> io::Result<()> {
    let number = planner::fixed_point_number(answer);
    match answer {
        Ok(FixedPoint { duration, steps }) => println!(out; "least {duration} steps {steps}"),
        Err(FixedPointRefusal::Failing { port, count, steps }) => {
            println!(out; "least refused {number} port {port} failing {count} steps {steps}")
        }
        Err(_) => println!(out; "least refused {number}"),
    }
}

// Portions from 1 ns on, to the end.
fn say_portions(out: &impl Print, held: HeldPlan) -> io::Result<()> {
    let mut at: u64 = 1;
    let mut used: u64 = 0;
    loop {
        match portion(held.planner, at, used) {
            Err(FixedPointRefusal::Unfinished { duration, steps }) => {
                println!(out; "at {duration}")?;
                at = duration;
                used = steps;
            }
            answer => return say_end(out, answer),
        }
    }
}

fn main(rt: HostRuntime) {
    let wrote = match held_plan(rt) {
        Ok(held) => say_portions(&rt, held),
        Err(unheld) => rt.println(unheld),
    };
    streams::finish(&rt, wrote);
}
