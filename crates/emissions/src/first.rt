// The first cycle in which a frame of the bad emission is left unsent.
ghost use Rattle.std.specs.Prelude.{◌≡◌, ◌≤◌, ◌<◌};
ghost use Rattle.cqf.specs.Limits.{port_slots};
ghost use Rattle.tables.specs.Lent.{plan_lent};
ghost use Rattle.emissions.specs.BadEmission.{latest_hop, first_unsent};

use crate::over::overrun_in;
use tables::Held;

// The first cycle in which some port leaves a frame unsent, of those up to the latest place on a route; the one behind them where
// none does.
pub(crate) fn first_unsent(held: Held, duration: u64, q: usize, latest: u64) -> u64
    requires { (duration ≤ held.lent.top)
        × (q < port_slots)
        × (latest ≡ latest_hop (plan_lent held.lent) q) }
    ensures { result ≡ first_unsent (plan_lent held.entry.lent) duration q }
{
    let end = latest + 1;
    for c in 0..end {
        if overrun_in(&held, duration, q, latest, c).is_some() {
            return c;
        }
    }
    end
}
