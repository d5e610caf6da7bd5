// What a slot's numbers say, and a turn of the plan in it.
ghost use Rattle.std.specs.Prelude.{◌≡◌, ◌<◌};
ghost use Rattle.batches.specs.Slot.{vacant, pending, turned};
ghost use Rattle.tables.specs.Tables.{plan_of};
ghost use Rattle.batching.specs.Slots.{slot_by, slot_of, pends_by, answered_by};

use super::{FOUND, INVALID, NONE, OUTSIDE, PENDING, Slot, VACANT};
use questions::{FixedPoint, FixedPointRefusal, fixed_point_tables};
use tables::{Planner, held_top};

// Document 02: a turn gives sixteen rounds.
const TURN: u64 = 16;

// A slot of this state and these numbers; the contract is of all of them at once, so that they are parameters.
fn with_numbers(
    planner: Planner,
    state: u32,
    duration: u64,
    port: u32,
    count: u32,
    steps: u64,
) -> Slot
    ensures { slot_of result ≡ slot_by (plan_of planner) state duration port count steps }
{
    Slot {
        duration,
        steps,
        state,
        port,
        count,
        planner,
    }
}

// The slot with no plan, whatever the tables.
pub(crate) fn vacant(planner: Planner) -> Slot
    ensures { slot_of result ≡ vacant }
{
    with_numbers(planner, VACANT, 0, 0, 0, 0)
}

// The slot of a plan at the start of its search.
pub(crate) fn placed(planner: Planner) -> Slot
    ensures { slot_of result ≡ pending (plan_of planner) 1 0 }
{
    with_numbers(planner, PENDING, 1, 0, 0, 0)
}

impl Slot {
    // Whether it has a plan that is pending.
    pub(crate) fn is_pending(&self) -> bool
        ensures { result ≡ pends_by self.now.state self.now.duration self.now.steps }
    {
        self.state == PENDING && self.steps < self.duration
    }

    // Whether it has a final answer.
    pub(crate) fn is_answered(&self) -> bool
        ensures { result ≡ answered_by self.now.state }
    {
        FOUND <= self.state && self.state <= OUTSIDE
    }

    // A turn of its plan, which came to its duration in so many steps.
    pub(crate) fn turned(&self) -> Slot
        requires { self.now.steps < self.now.duration }
        ensures { slot_of result ≡ turned (plan_of self.now.planner) self.now.duration self.now.steps }
    {
        let planner = self.planner;
        let steps = self.steps;
        let top = held_top(planner.form, &planner.hops, planner.top);
        match fixed_point_tables(planner.lend().upto(top), self.duration, TURN) {
            Ok(
                FixedPoint {
                    duration: found,
                    steps: used,
                },
            ) => with_numbers(planner, FOUND, found, 0, 0, steps + used),
            Err(FixedPointRefusal::NoPlan) => with_numbers(planner, INVALID, 0, 0, 0, 0),
            Err(FixedPointRefusal::BadStart) => with_numbers(planner, OUTSIDE, 0, 0, 0, 0),
            Err(
                FixedPointRefusal::Failing {
                    port,
                    count,
                    steps: used,
                },
            ) => with_numbers(planner, NONE, 0, port, count, steps + used),
            Err(
                FixedPointRefusal::Unfinished {
                    duration: reached,
                    steps: used,
                },
            ) => with_numbers(planner, PENDING, reached, 0, 0, steps + used),
        }
    }
}
