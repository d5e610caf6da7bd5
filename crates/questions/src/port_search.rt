// One port's part in the searches, by the flows that cross it.
ghost use Rattle.std.specs.Prelude.{◌≡◌, suc, max, ◌≤◌, ◌<◌};
ghost use Rattle.cqf.specs.Limits.{port_slots};
ghost use Rattle.cqf.specs.PortSteps.{port_margin_safe};
ghost use Rattle.tables.specs.Lent.{plan_lent};
ghost use Rattle.questions.specs.PortSearch.{Raised};

use super::flow_set::crossing_flows;
use super::set_demand::set_need;
use tables::Held;

// Up from a duration by what the port needs, until it passes or what it needs is above top.
pub(crate) fn raise_port(held: Held, q: usize, from: u64) -> u64
    requires { (q < port_slots) × (1 ≤ from) }
    ensures { Raised (plan_lent held.entry.lent) q from result }
{
    let set = crossing_flows(held, q);
    let limit = held.lent.top as u64;
    let mut t = from;
    while t <= limit {
        let needed = set_need(held.lent, q, set, t);
        if needed <= t {
            return t;
        }
        t = needed;
    }
    t
}

// Down from top, as far as the port passes and no further than floor: the larger of floor and the port's own margin-safe duration.
pub(crate) fn lower_port(held: Held, q: usize, floor: u64) -> u64
    requires { (q < port_slots) × (1 ≤ floor) × (floor ≤ suc held.lent.top) }
    ensures { result ≡ max floor (port_margin_safe (plan_lent held.entry.lent) q) }
{
    let set = crossing_flows(held, q);
    let mut t = held.lent.top as u64;
    while floor <= t {
        let needed = set_need(held.lent, q, set, t);
        if t < needed {
            return t + 1;
        }
        t = floor.max(needed) - 1;
    }
    t + 1
}
