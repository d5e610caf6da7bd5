// The planner for C and Rust: the calls with their answers as numbers (include/cycle_planner.h).
#![tactic(auto)]

ghost use Rattle.std.specs.Prelude.{◌≡◌};
ghost use Rattle.plan.specs.Layout.{form_by};
ghost use Rattle.plan.specs.Field.{field_at, repeats};
ghost use Rattle.converting.specs.Convert.{upgrade_answer, upgrade_leaves, downgrade_answer, downgrade_leaves};
ghost use Rattle.batches.specs.Batch.{empty_batch, place_answer, place_leaves, serve_answer, serve_leaves, collect_answer, collect_leaves};
ghost use Rattle.batching.specs.Slots.{batch_of};
ghost use Rattle.capi.specs.Numbers.{load_numbers, steps_numbers, written_numbers, served_number, field_numbers, form_by_tag};

use crate::in_c::form_by_tag;
use batching::Batch;

mod in_c; // in_c.rt: each answer as numbers
mod asked; // asked.rt: questions about one duration
mod batch_numbers; // batch_numbers.rt: those of the calls of a batch
mod emission; // emission.rt: the bad emission
mod emission_numbers; // emission_numbers.rt: those of the calls for it
mod field_numbers; // field_numbers.rt: a field as numbers
mod fields; // fields.rt: the writers of single fields
mod lends; // lends.rt: the tables at the pointers of a call
mod lean; // lean.rt: the searches over a scratch of one number
mod listed; // listed.rt: spans, and a list of slacks
mod loads; // loads.rt: the loads
mod near; // near.rt: the nearest durations
mod nearest_numbers; // nearest_numbers.rt: those of the call that names the nearest durations
mod searches; // searches.rt: the searches
mod text; // text.rt: a plan's text
mod text_written; // text_written.rt: the held plan as text
mod usable; // usable.rt: those of the calls that name spans
mod writes; // writes.rt: calls that write fields
mod written; // written.rt: those of the calls that write bytes

#[repr(C)]
#[derive(Clone, Copy)]
pub struct AnswerNumbers {
    pub refusal: u32,
    pub first: u64,
    pub second: u64,
}

#[repr(C)]
#[derive(Clone, Copy)]
pub struct SlackAnswerNumbers {
    pub refusal: u32,
    pub slack: i64,
}

#[repr(C)]
#[derive(Clone, Copy)]
pub struct FixedPointAnswerNumbers {
    pub refusal: u32,
    pub first: u64,
    pub second: u64,
    pub steps: u64,
}

#[repr(C)]
#[derive(Clone, Copy)]
pub struct BurstAnswerNumbers {
    pub refusal: u32,
    pub cycle: u64,
    pub frames: u64,
    pub instant: u64,
}

#[repr(C)]
#[derive(Clone, Copy)]
pub struct UnsentAnswerNumbers {
    pub refusal: u32,
    pub failing: u32,
    pub port: u32,
    pub cycle: u64,
    pub bits: u64,
    pub most: u64,
}

#[repr(C)]
#[derive(Clone, Copy)]
pub struct EncodeAnswerNumbers {
    pub refusal: u32,
    pub line: u32,
    pub fault: u32,
    pub item: u32,
    pub value: u64,
}

#[repr(C)]
#[derive(Clone, Copy)]
pub struct FieldReadNumbers {
    pub refusal: u32,
    pub tag: u32,
    pub offset: u64,
    pub numbers: [u64; 6],
}

#[repr(C)]
#[derive(Clone, Copy)]
pub struct PlaceOutcomeNumbers {
    pub batch: Batch,
    pub answer: AnswerNumbers,
}

// The slot that was served; 8 for none.
#[repr(C)]
#[derive(Clone, Copy)]
pub struct ServeOutcomeNumbers {
    pub batch: Batch,
    pub slot: u64,
}

#[repr(C)]
#[derive(Clone, Copy)]
pub struct CollectOutcomeNumbers {
    pub batch: Batch,
    pub answer: FixedPointAnswerNumbers,
}

#[unsafe(no_mangle)]
pub extern "C" fn cp_field_bytes(plan: &[u8], offset: usize) -> FieldReadNumbers
    ensures { result ≡ field_numbers (field_at (form_by plan.now) plan.now offset) }
{
    FieldReadNumbers::from(plan::read_field(plan, offset))
}

#[unsafe(no_mangle)]
pub extern "C" fn cp_repeats_bytes(tag: u32, value: &[u8]) -> bool
    ensures { result ≡ repeats (form_by_tag tag) value.now }
{
    plan::repeats_port(form_by_tag(tag), value)
}

#[unsafe(no_mangle)]
pub extern "C" fn cp_upgrade_bytes(plan: &[u8], buffer: &mut [u8]) -> AnswerNumbers
    ensures { (result ≡ written_numbers (upgrade_answer plan.now buffer.old))
        × (buffer.new ≡ upgrade_leaves plan.now buffer.old) }
{
    AnswerNumbers::from(converting::upgrade(plan, buffer))
}

#[unsafe(no_mangle)]
pub extern "C" fn cp_downgrade_bytes(plan: &[u8], buffer: &mut [u8]) -> AnswerNumbers
    ensures { (result ≡ written_numbers (downgrade_answer plan.now buffer.old))
        × (buffer.new ≡ downgrade_leaves plan.now buffer.old) }
{
    AnswerNumbers::from(converting::downgrade(plan, buffer))
}

#[unsafe(no_mangle)]
pub extern "C" fn cp_batch_empty() -> Batch
    ensures { batch_of result ≡ empty_batch }
{
    batching::empty_batch()
}

#[unsafe(no_mangle)]
pub extern "C" fn cp_batch_place_bytes(batch: Batch, slot: u64, plan: &[u8]) -> PlaceOutcomeNumbers
    ensures { (batch_of result.batch ≡ place_leaves (batch_of batch) slot plan.now) × (result.answer ≡ load_numbers (place_answer (batch_of batch) slot plan.now)) }
{
    PlaceOutcomeNumbers::from(batching::place(batch, slot, plan))
}

#[unsafe(no_mangle)]
pub extern "C" fn cp_batch_serve(batch: Batch) -> ServeOutcomeNumbers
    ensures { (batch_of result.batch ≡ serve_leaves (batch_of batch)) × (result.slot ≡ served_number (serve_answer (batch_of batch))) }
{
    ServeOutcomeNumbers::from(batching::serve(batch))
}

#[unsafe(no_mangle)]
pub extern "C" fn cp_batch_collect(batch: Batch, slot: u64) -> CollectOutcomeNumbers
    ensures { (batch_of result.batch ≡ collect_leaves (batch_of batch) slot) × (result.answer ≡ steps_numbers (collect_answer (batch_of batch) slot)) }
{
    CollectOutcomeNumbers::from(batching::collect(batch, slot))
}
