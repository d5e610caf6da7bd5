// A turn.
ghost use Rattle.std.specs.Prelude.{◌≡◌};
ghost use Rattle.batching.specs.Slots.{batch_of};
ghost use Rattle.batching.specs.Answer.{ServesTurn};

use super::{Batch, SLOTS, ServeOutcome};

// Sixteen steps for the first plan that is pending, from the next slot on, going round.
pub fn serve(batch: Batch) -> ServeOutcome
    ensures { ServesTurn (batch_of batch) result }
{
    let from = batch.next % SLOTS;
    for i in 0..SLOTS {
        let slot = (from + i) % SLOTS;
        let at = slot as usize;
        let held = batch.slots[at];
        if held.is_pending() {
            let mut left = batch;
            left.slots[at] = held.turned();
            left.next = (slot + 1) % SLOTS;
            return ServeOutcome {
                batch: left,
                answer: Some(slot),
            };
        }
    }
    ServeOutcome {
        batch,
        answer: None,
    }
}
