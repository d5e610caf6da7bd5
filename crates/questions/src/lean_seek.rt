// The searches port by port, over no table of demands.
ghost use Rattle.std.specs.Prelude.{◌≡◌};
ghost use Rattle.cqf.specs.Condition.{least, margin_safe};
ghost use Rattle.tables.specs.Lent.{plan_lent};
ghost use Rattle.questions.specs.Search.{wanted};

use super::port_search::{lower_port, raise_port};
use super::seek::Goal;
use tables::{Held, PORTS};

// The least duration, or one above top where there is none: ports take their steps in turn until all of them pass at t.
fn lean_least(held: Held) -> u64
    ensures { result ≡ least (plan_lent held.entry.lent) }
{
    let limit = held.lent.top as u64;
    let mut t: u64 = 1;
    let mut q: usize = 0;
    let found = loop {
        let mut reached = t;
        'ports: for _passed in 0..PORTS {
            reached = raise_port(held, q, t);
            q = (q + 1) % PORTS;
            if t < reached {
                break 'ports;
            }
        }
        if reached <= t {
            break t;
        }
        if limit < reached {
            return limit + 1;
        }
        t = reached;
    };
    found
}

// The margin-safe duration, or one above top where there is none: the largest of the ports' own.
fn lean_margin_safe(held: Held) -> u64
    ensures { result ≡ margin_safe (plan_lent held.entry.lent) }
{
    let limit = held.lent.top as u64;
    let mut safe: u64 = 1;
    for q in 0..PORTS {
        safe = lower_port(held, q, safe);
        if limit < safe {
            return safe;
        }
    }
    safe
}

// The duration that a search looks for, or one above top where there is none.
pub(crate) fn lean_seek(goal: Goal, held: Held) -> u64
    ensures { result ≡ wanted goal (plan_lent held.entry.lent) }
{
    match goal {
        Goal::Least => lean_least(held),
        Goal::MarginSafe => lean_margin_safe(held),
    }
}
