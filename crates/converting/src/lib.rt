// Conversion of a plan's bytes from one form to the other.
#![tactic(auto)]

use plan::Refusal;

mod convert; // convert.rt: to the newer form, and back
mod written; // written.rt: the plan that was read, written in one form

pub use convert::{downgrade, upgrade};

// Why a plan is not converted.
#[derive(Clone, Copy)]
pub enum ConvertRefusal {
    // What its reading answers.
    Refused(Refusal),
    // Where the first flow stands that has more ports than the older form allows.
    LongRoute(usize),
    // The length needed.
    ShortBuffer(usize),
}

impl From<Refusal> for ConvertRefusal {
    ghost use Rattle.std.specs.Prelude.{◌≡◌};
    ghost use Rattle.converting.specs.declared.ConvertRefusal.{ConvertRefusal};

    ghost from_gives = { λ read refusal. refusal ≡ ConvertRefusal.Refused read };

    fn from(read: Refusal) -> ConvertRefusal {
        ConvertRefusal::Refused(read)
    }
}
