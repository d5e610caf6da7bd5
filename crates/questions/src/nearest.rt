// The nearest admissible durations: the largest up to a given one, and the least from it on.
ghost use Rattle.std.specs.Prelude.{◌≡◌};
ghost use Rattle.tables.specs.Lent.{plan_lent};
ghost use Rattle.questions.specs.Nearest.{duration_in, nearest_answer, neighbour_of, nearest_of};

use super::last_upto::last_upto;
use super::upward::first_from;
use numbers::limits::between;
use tables::{Lent, PORTS, hold};

// An admissible duration on each side, where there is one.
#[derive(Clone, Copy)]
pub struct Nearest {
    pub below: Option<u64>,
    pub above: Option<u64>,
}

#[derive(Clone, Copy)]
pub enum NearestRefusal {
    NoPlan,
    BadDuration,
}

// What a search found: a number outside 1 to top stands for nothing.
fn told(top: u32, found: u64) -> Option<u64>
    ensures { neighbour_of result ≡ duration_in top found }
{
    if !between(1, top as u64, found) {
        return None;
    }
    Some(found)
}

// The nearest admissible durations; both are the given one where it is admissible.
pub fn nearest_tables(lent: Lent, duration: u64) -> Result<Nearest, NearestRefusal>
    ensures { nearest_of result ≡ nearest_answer (plan_lent lent.entry) duration }
{
    let Some(held) = hold(lent) else {
        return Err(NearestRefusal::NoPlan);
    };
    if !between(1, held.lent.top as u64, duration) {
        return Err(NearestRefusal::BadDuration);
    }
    let mut out = [0u64; PORTS];
    let last = last_upto(held, duration, &mut out);
    let first = first_from(held, duration, &mut out);
    Ok(Nearest {
        below: told(held.lent.top, last),
        above: told(held.lent.top, first),
    })
}
