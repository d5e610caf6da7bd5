// The final answer of a slot.
ghost use Rattle.std.specs.Prelude.{◌≡◌, true};
ghost use Rattle.batching.specs.Slots.{batch_of, answered_by};
ghost use Rattle.batching.specs.Answer.{collect_of, final_by, Collects};

use super::slots::vacant;
use super::{Batch, CollectOutcome, CollectRefusal, FOUND, INVALID, NONE, SLOTS, Slot};
use questions::FixedPoint;

impl Slot {
    // The final answer that a slot has.
    fn final_answer(&self) -> Result<FixedPoint, CollectRefusal>
        requires { answered_by self.now.state ≡ true }
        ensures { collect_of result ≡ final_by self.now.state self.now.duration self.now.port self.now.count self.now.steps }
    {
        let Slot {
            duration,
            steps,
            port,
            count,
            ..
        } = *self;
        match self.state {
            FOUND => Ok(FixedPoint { duration, steps }),
            NONE => Err(CollectRefusal::Failing { port, count, steps }),
            INVALID => Err(CollectRefusal::NoPlan),
            _ => Err(CollectRefusal::BadStart),
        }
    }
}

// The final answer in a slot, which has no plan then: 15, then 28.
pub fn collect(batch: Batch, slot: u64) -> CollectOutcome
    ensures { Collects (batch_of batch) slot result }
{
    if SLOTS <= slot {
        return CollectOutcome {
            batch,
            answer: Err(CollectRefusal::NoSlot),
        };
    }
    let at = slot as usize;
    let held = batch.slots[at];
    if !held.is_answered() {
        return CollectOutcome {
            batch,
            answer: Err(CollectRefusal::Unanswered),
        };
    }
    let mut left = batch;
    left.slots[at] = vacant(held.planner);
    CollectOutcome {
        batch: left,
        answer: held.final_answer(),
    }
}
