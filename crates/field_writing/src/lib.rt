// Single fields written from their numbers, each into what remains of a lent buffer. A field that a plan's reader would refuse is
// refused, and nothing is written of it.
#![tactic(auto)]

ghost use Rattle.std.specs.Prelude.{◌≡◌};
ghost use Rattle.field_writing.specs.declared.WriteRefusal.TheVariants as WriteRefusal;

use plan::{Fault, Refusal};

mod field; // field.rt: a field's bytes, tested as they are read, into a buffer
mod narrow; // narrow.rt: numbers that are given wider than they are written
pub mod older; // older.rt: the older form's fields without a route
pub mod newer; // newer.rt: the newer form's
pub mod flow; // flow.rt: a flow of either form with its route

pub use flow::{write_flow, write_flow2};
pub use newer::{write_header2, write_port2};
pub use older::{write_clocks, write_extra, write_header, write_jitter, write_port};

// Why a field is not written.
#[derive(Clone, Copy)]
pub enum WriteRefusal {
    // What the reader refuses the field for.
    Refused(Fault),
    // The length needed.
    ShortBuffer(usize),
}

impl From<Refusal> for WriteRefusal {
    ghost from_gives = { λ r e. e ≡ WriteRefusal.Refused r.fault };

    fn from(refusal: Refusal) -> WriteRefusal {
        WriteRefusal::Refused(refusal.fault)
    }
}
