// Gate control lists: the question over the tables, and the list written into a lent buffer.
#![tactic(auto)]

ghost use Rattle.std.specs.Prelude.{◌≡◌};
ghost use Rattle.gate_writing.specs.Answer.{refusal_of};

use questions::CheckRefusal;

mod states; // states.rt: queues, and the gate states of two of them
mod gate; // gate.rt: a field of the list
mod list; // list.rt: a cycle, and the list of two
mod gates; // gates.rt: the question

pub use gate::{FIELD_SIZE, INTERVAL_AT, MOST_BYTES, STATES_AT};
pub use gates::gates_tables;

// Why no list is written.
#[derive(Clone, Copy, Debug, PartialEq, Eq)]
pub enum GatesRefusal {
    NoPlan,
    BadDuration,
    Failing { port: u32, count: u32 },
    BadQueue,
    // The length needed.
    ShortBuffer(usize),
}

// What the plain question refuses.
impl From<CheckRefusal> for GatesRefusal {
    ghost from_gives = { λ refused gates. gates ≡ refusal_of refused };

    fn from(refused: CheckRefusal) -> GatesRefusal {
        match refused {
            CheckRefusal::NoPlan => GatesRefusal::NoPlan,
            CheckRefusal::BadDuration => GatesRefusal::BadDuration,
            CheckRefusal::Failing { port, count } => GatesRefusal::Failing { port, count },
        }
    }
}
