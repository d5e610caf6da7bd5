// The first cycle in which a frame of the bad emission is left unsent, and the lowest port there.
ghost use Rattle.std.specs.Prelude.{◌≡◌, true, ◌≤◌, ◌<◌};
ghost use Rattle.cqf.specs.Limits.{port_slots};
ghost use Rattle.cqf.specs.Condition.{fails};
ghost use Rattle.tables.specs.Lent.{plan_lent};
ghost use Rattle.questions.specs.Outcome.{check_answer};
ghost use Rattle.questions.specs.Answer.{check_of};
ghost use Rattle.emissions.specs.Unsent.{unsent, unsent_answer, unsent_of, told_unsent};
ghost use Rattle.emissions.specs.Meaning.{UnsentMeans};

use crate::first::first_unsent;
use crate::hop::latest_hop;
use crate::over::{overrun_in, sendable};
use numbers::port::window;
use questions::{CheckRefusal, check_tables};
use tables::{Held, Lent};

// The port that fails, the cycle, the port that leaves a frame unsent in it, the bits that this one must send and those that it can.
#[derive(Clone, Copy, Debug, PartialEq, Eq)]
pub struct Unsent {
    pub failing: u32,
    pub cycle: u64,
    pub port: u32,
    pub bits: u64,
    pub most: u64,
}

#[derive(Clone, Copy, Debug, PartialEq, Eq)]
pub enum UnsentRefusal {
    NoPlan,
    BadDuration,
}

// Of the bad emission of the port in slot q, which fails.
fn unsent_of(held: Held, duration: u64, q: usize) -> Unsent
    requires { (1 ≤ duration)
        × (duration ≤ held.lent.top)
        × (q < port_slots)
        × (fails (plan_lent held.lent) duration q ≡ true) }
    ensures { told_unsent result ≡ unsent (plan_lent held.entry.lent) duration q }
{
    let latest = latest_hop(held, q) as u64;
    let cycle = first_unsent(held, duration, q, latest);
    let over = overrun_in(&held, duration, q, latest, cycle).unwrap();
    let slot = over.slot;
    let lent = held.lent;
    let available = window(lent.guard, duration);
    let most = sendable(
        lent.rates[slot],
        lent.blockings[slot],
        lent.extras[slot],
        available,
    );
    Unsent {
        failing: (q + 1) as u32,
        cycle,
        port: (slot + 1) as u32,
        bits: over.bits,
        most,
    }
}

// The plain question, a function of its own in the machine: its table of demands is off the stack when cycles are looked at.
#[inline(never)]
fn asked(lent: Lent, duration: u64) -> Result<(), CheckRefusal>
    ensures { check_of result ≡ check_answer (plan_lent lent.entry) duration }
{
    check_tables(lent, duration)
}

// Of the bad emission of the lowest port that fails, the first cycle in which a frame is left unsent, and the lowest port there; none
// of an admissible duration.
pub fn unsent_tables(lent: Lent, duration: u64) -> Result<Option<Unsent>, UnsentRefusal>
    ensures answers { unsent_of result ≡ unsent_answer (plan_lent lent.entry) duration }
    ensures means { UnsentMeans (plan_lent lent.entry) duration (unsent_of result) }
{
    match asked(lent, duration) {
        Ok(()) => Ok(None),
        Err(CheckRefusal::NoPlan) => Err(UnsentRefusal::NoPlan),
        Err(CheckRefusal::BadDuration) => Err(UnsentRefusal::BadDuration),
        Err(CheckRefusal::Failing { port, count: _ }) => {
            let held = Held { lent };
            Ok(Some(unsent_of(held, duration, (port - 1) as usize)))
        }
    }
}
