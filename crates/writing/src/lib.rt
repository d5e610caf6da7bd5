// The bytes of numbers and fields, written into what remains of a lent buffer.
#![tactic(auto)]

pub mod number; // number.rt: numbers of several bytes, high byte first
pub mod field; // field.rt: the older form's fields without a route
pub mod newer; // newer.rt: the newer form's
pub mod flow; // flow.rt: a flow of either form with its route
pub mod room; // room.rt: whether a buffer is long enough

// Why a plan's bytes or its text are not written.
#[derive(Clone, Copy, Debug, PartialEq, Eq)]
pub enum SaveRefusal {
    NoPlan,
    // The length needed.
    ShortBuffer(usize),
}
