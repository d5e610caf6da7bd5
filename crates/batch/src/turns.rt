// Turns until no plan is pending.
use batching::PENDING;
use planner::Batch;
use streams::complain;

// More turns than eight plans take: no search has more steps than the highest top, 100,000,000.
const MOST: u64 = 50_000_000;

// How far the plan in a slot has come.
fn report(rt: HostRuntime, batch: &Batch, slot: u64) {
    let Some(held) = batch.slots.get(slot as usize) else {
        return;
    };
    if held.state == PENDING {
        complain(&rt, format_args!("place {slot} at {}", held.duration));
    } else {
        complain(&rt, format_args!("place {slot} answered"));
    }
}

pub(crate) fn serve_all(rt: HostRuntime, mut batch: Batch) -> Batch {
    for _ in 0..MOST {
        let outcome = planner::serve(batch);
        let Some(slot) = outcome.answer else {
            break;
        };
        batch = outcome.batch;
        report(rt, &batch, slot);
    }
    batch
}
