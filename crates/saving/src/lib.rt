// Saving: the plan in the tables, written field by field into what remains of a lent buffer.
#![tactic(auto)]

mod kind; // kind.rt: the kinds of field of each form, and their slots
mod slot; // slot.rt: the field of one slot in the older form
mod newer; // newer.rt: in the newer form
mod size; // size.rt: how many bytes the fields are
mod slots; // slots.rt: the fields of all slots
mod clock; // clock.rt: the clocks' field
mod whole; // whole.rt: all fields of a plan
mod held; // held.rt: the plan in the tables

pub use held::save_tables;
