// The load: a plan's bytes read into fresh tables, held where the rules find no refusal.
#![tactic(auto)]

use plan::Refusal;
use tables::Planner;

mod held; // held.rt: the load of a planner by value
mod lent; // lent.rt: the load into lent columns
mod one_form; // one_form.rt: bytes read as a plan of one form, into lent tables
mod reading; // reading.rt: a whole plan read into fresh tables
mod field; // field.rt: one field, tested and stored
mod repeat; // repeat.rt: a field's route: a port twice in it, and the ports that it names
mod absent; // absent.rt: whether something is absent that a field names
mod first; // first.rt: the first field that is sought
mod store; // store.rt: a field stored into the tables
mod slots; // slots.rt: the numbers of a port or a flow

pub use first::{Sought, first_field};
pub use held::{load, load_strict, read_plan};
pub use lent::load_columns;
pub use one_form::read_form_tables;

// How many port and flow fields a plan has that was accepted.
#[derive(Clone, Copy)]
pub struct Loaded {
    pub ports: u16,
    pub flows: u16,
}

// A load's answer beside the planner that it leaves.
#[derive(Clone, Copy)]
pub struct LoadOutcome {
    pub planner: Planner,
    pub answer: Result<Loaded, Refusal>,
}

// Document 01: a plan has 1 to 16,384 bytes.
pub const MAX_BYTES: usize = 16_384;
