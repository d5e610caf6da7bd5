// The highest-numbered port that some flow crosses.
ghost use Rattle.std.specs.Prelude.{◌≡◌, ◌-◌, ◌<◌};
ghost use Rattle.cqf.specs.Limits.{port_slots};
ghost use Rattle.cqf.specs.Condition.{crossed};
ghost use Rattle.cqf.specs.PortSteps.{highest_crossed};
ghost use Rattle.tables.specs.Lent.{plan_lent};

use super::port_demand::route_holds;
use tables::{FLOWS, Held, PORTS};

// Whether some flow crosses the port in slot q.
fn is_crossed(held: Held, q: usize) -> bool
    requires { q < port_slots }
    ensures { result ≡ crossed (plan_lent held.entry.lent) q }
{
    for f in 0..FLOWS {
        if route_holds(held, f, q) {
            return true;
        }
    }
    false
}

// Its slot, 0 where there is none.
pub(crate) fn highest_slot(held: Held) -> usize
    ensures { result ≡ highest_crossed (plan_lent held.entry.lent) - 1 }
{
    for q in (0..PORTS).rev() {
        if is_crossed(held, q) {
            return q;
        }
    }
    0
}
