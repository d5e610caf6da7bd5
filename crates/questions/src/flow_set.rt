// The flows that cross a port, as a set of 256 bits in four numbers.
ghost use Rattle.std.specs.Prelude.{◌≡◌, ◌+◌, ◌≤◌, ◌<◌};
ghost use Rattle.cqf.specs.Limits.{port_slots, flow_slots};
ghost use Rattle.questions.specs.FlowSet.{word_slots, flow_word, Crossing};

use super::port_demand::route_holds;
use tables::Held;

// Bit i of the first number is for the flow in slot i, of the second for that in slot 64 + i, and so on; by name, which is as short as a
// loop over four numbers.
#[derive(Clone, Copy)]
pub(crate) struct FlowSet {
    pub(crate) first: u64,
    pub(crate) second: u64,
    pub(crate) third: u64,
    pub(crate) fourth: u64,
}

// Flows in one number of the set.
const WORD: usize = 64;

// The flows from slot base on that cross the port in slot q.
fn flow_word(held: Held, base: usize, q: usize) -> u64
    requires { (base + word_slots ≤ flow_slots) × (q < port_slots) }
    ensures { result ≡ flow_word held.entry.lent.hops.now held.entry.lent.routes.now q base }
{
    let mut set: u64 = 0;
    for i in 0..WORD {
        if route_holds(held, base + i, q) {
            set |= 1u64 << i;
        }
    }
    set
}

// All flows that cross it.
pub(crate) fn crossing_flows(held: Held, q: usize) -> FlowSet
    requires { q < port_slots }
    ensures { Crossing held.entry.lent.hops.now held.entry.lent.routes.now q result }
{
    FlowSet {
        first: flow_word(held, 0, q),
        second: flow_word(held, WORD, q),
        third: flow_word(held, 2 * WORD, q),
        fourth: flow_word(held, 3 * WORD, q),
    }
}
