// A plan read into a slot.
ghost use Rattle.std.specs.Prelude.{◌≡◌};
ghost use Rattle.batching.specs.Slots.{batch_of};
ghost use Rattle.batching.specs.Answer.{Places};

use super::slots::placed;
use super::{Batch, PlaceOutcome, PlaceRefusal, SLOTS};
use loading::load;

// The plan in these bytes is read loosely into a slot that has none: 15, then 27, then what a load answers.
pub fn place(batch: Batch, slot: u64, plan: &[u8]) -> PlaceOutcome
    ensures { Places (batch_of batch) slot plan.now result }
{
    if SLOTS <= slot {
        return PlaceOutcome {
            batch,
            answer: Err(PlaceRefusal::NoSlot),
        };
    }
    let at = slot as usize;
    let held = batch.slots[at];
    if held.is_pending() || held.is_answered() {
        return PlaceOutcome {
            batch,
            answer: Err(PlaceRefusal::Occupied),
        };
    }
    let outcome = load(held.planner, plan);
    match outcome.answer {
        Ok(loaded) => {
            let mut left = batch;
            left.slots[at] = placed(outcome.planner);
            PlaceOutcome {
                batch: left,
                answer: Ok(loaded),
            }
        }
        Err(refusal) => PlaceOutcome {
            batch,
            answer: Err(PlaceRefusal::Refused(refusal)),
        },
    }
}
