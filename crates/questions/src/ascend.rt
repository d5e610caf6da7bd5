// The search for the least duration, upwards from 1 ns: after a pass over all ports the one that needs most goes on alone until it
// passes, and then comes the next pass.
ghost use Rattle.std.specs.Prelude.{◌≡◌, length};
ghost use Rattle.cqf.specs.Limits.{port_slots};
ghost use Rattle.cqf.specs.Condition.{least};
ghost use Rattle.tables.specs.Lent.{plan_lent};
ghost use Rattle.questions.specs.Search.{Found};

use super::demand::demands;
use super::failing::held_fails;
use super::need::neediest;
use super::port_search::raise_port;
use numbers::port::window;
use tables::{Held, PORTS};

// The least duration, or one above top where there is none. No shorter duration than t is admissible. Where there is one, out is left
// with the demands at it.
pub(crate) fn ascend(held: Held, out: &mut [u64]) -> u64
    requires { length out.old ≡ port_slots }
    ensures { Found least (plan_lent held.entry.lent) result out.new }
{
    let lent = held.lent;
    let limit = lent.top as u64;
    let mut t: u64 = 1;
    let found = loop {
        demands(held, t, out);
        let available = window(lent.guard, t);
        let mut passes = true;
        'ports: for q in 0..PORTS {
            if held_fails(
                lent.rates[q],
                lent.blockings[q],
                lent.extras[q],
                available,
                out[q],
            ) {
                passes = false;
                break 'ports;
            }
        }
        if passes {
            break t;
        }
        let worst = neediest(lent, &out[..]);
        let reached = raise_port(held, worst.slot, t);
        if limit < reached {
            return limit + 1;
        }
        t = reached;
    };
    found
}
