// A batch of eight plans, searched in turn. It goes into each call by value and comes back as the call leaves it.
#![tactic(auto)]

ghost use Rattle.std.specs.Prelude.{◌≡◌};
ghost use Rattle.batches.specs.Batch.{empty_batch};
ghost use Rattle.batching.specs.Slots.{batch_of};

use loading::Loaded;
use plan::Refusal;
use questions::FixedPoint;
use tables::Planner;

mod collecting; // collecting.rt: the final answer of a slot
mod placing; // placing.rt: a plan read into a slot
mod serving; // serving.rt: a turn
mod slots; // slots.rt: what a slot's numbers say, and a turn of its plan

pub use collecting::collect;
pub use placing::place;
pub use serving::serve;

// Document 02: places 0 to 7.
pub const SLOTS: u64 = 8;

// What a slot holds, by its state, a number since C holds the slots. Any other state is a slot with no plan.
pub const VACANT: u32 = 0;

pub const PENDING: u32 = 1;

pub const FOUND: u32 = 2;

pub const NONE: u32 = 3;

pub const INVALID: u32 = 4;

pub const OUTSIDE: u32 = 5;

// A plan that is pending has come to the duration in so many steps. A final answer has the duration found or the ports that fail at
// top, and the steps.
#[repr(C)]
#[derive(Clone, Copy)]
pub struct Slot {
    pub duration: u64,
    pub steps: u64,
    pub state: u32,
    pub port: u32,
    pub count: u32,
    pub planner: Planner,
}

// The slots, and the one after the last that was served.
#[repr(C)]
#[derive(Clone, Copy)]
pub struct Batch {
    pub slots: [Slot; 8],
    pub next: u64,
}

// Why a plan is not placed.
#[derive(Clone, Copy)]
pub enum PlaceRefusal {
    NoSlot,
    Occupied,
    // What its load answers.
    Refused(Refusal),
}

#[derive(Clone, Copy)]
pub struct PlaceOutcome {
    pub batch: Batch,
    pub answer: Result<Loaded, PlaceRefusal>,
}

// The slot that was served, if any.
#[derive(Clone, Copy)]
pub struct ServeOutcome {
    pub batch: Batch,
    pub answer: Option<u64>,
}

// Why no duration is collected: there is none, with the ports that fail at top, or the slot has no final answer.
#[derive(Clone, Copy)]
pub enum CollectRefusal {
    Failing { port: u32, count: u32, steps: u64 },
    NoPlan,
    BadStart,
    NoSlot,
    Unanswered,
}

#[derive(Clone, Copy)]
pub struct CollectOutcome {
    pub batch: Batch,
    pub answer: Result<FixedPoint, CollectRefusal>,
}

// The batch with no plan.
pub fn empty_batch() -> Batch
    ensures { batch_of result ≡ empty_batch }
{
    let slot = slots::vacant(tables::empty());
    Batch {
        slots: [slot; 8],
        next: 0,
    }
}
