// The numbers of a line that passed its tests, put into the columns of a plan that is being read.
ghost use Rattle.std.specs.Prelude.{◌+◌, ◌-◌, ◌*◌, ◌≤◌, ◌<◌, ◌≡◌, length, get_or, set, true};
ghost use Rattle.std.proofs.lemmas.List.Edits.{sets};
ghost use Rattle.cqf.specs.Limits.{flow_slots, route_stride, max_hops};
ghost use Rattle.plan_reading.specs.Ranges.{PortOk, FlowOk, ExtraOk, JitterOk};
ghost use Rattle.cqf.specs.Plan.{clock_ok};
ghost use Rattle.numbers.specs.Clock.{clock_of};
ghost use Rattle.plan_text.specs.Line.{first_failing, port_test};
ghost use Rattle.plan_text.specs.Text.{clock_in};

use numbers::clock::Clock;
use tables::{Planner, STRIDE, columns};

// The slot of a port or a flow.
pub(crate) fn slot_of(numbers: &[u64]) -> usize
    requires { (0 < length numbers.now) × (1 ≤ get_or numbers.now 0 0) }
    ensures { result ≡ get_or numbers.now 0 0 - 1 }
{
    (numbers[0] - 1) as usize
}

// The numbers of the clocks.
pub(crate) fn clock_of(numbers: &[u64]) -> Clock
    requires { (max_hops ≤ length numbers.now) × (clock_ok (clock_in numbers.now) ≡ true) }
    ensures { clock_of result ≡ clock_in numbers.now }
{
    Clock {
        drift: numbers[0] as u32,
        timing_jitter: numbers[1] as u32,
        sync_error: numbers[2] as u32,
    }
}

// A port with its extra bytes.
pub(crate) fn store_port(numbers: &[u64], tables: &mut Planner)
    requires { (max_hops ≤ length numbers.now)
        × PortOk (get_or numbers.now 0 0) (get_or numbers.now 1 0) (get_or numbers.now 2 0)
        × ExtraOk (get_or numbers.now 0 0) (get_or numbers.now 3 0) }
    ensures { tables.new ≡ record tables.old {
      rates = set tables.old.rates (get_or numbers.now 0 0 - 1) (get_or numbers.now 1 0);
      blockings = set tables.old.blockings (get_or numbers.now 0 0 - 1) (get_or numbers.now 2 0);
      extras = set tables.old.extras (get_or numbers.now 0 0 - 1) (get_or numbers.now 3 0);
    } }
{
    let slot = slot_of(numbers);
    tables.rates[slot] = numbers[1] as u32;
    tables.blockings[slot] = numbers[2] as u16;
    tables.extras[slot] = numbers[3] as u8;
}

// A route, copied to position base of the routes and on.
fn store_route(routes: &mut columns::Routes, base: usize, route: &[u64])
    requires { (base + length route.now ≤ flow_slots * route_stride)
        × (length route.now ≤ first_failing port_test route.now) }
    ensures { routes.new ≡ sets routes.old base route.now }
{
    for (i, port) in route.iter().enumerate() {
        routes[base + i] = *port as u8;
    }
}

// A flow with its jitter and its route.
pub(crate) fn store_flow(numbers: &[u64], route: &[u64], tables: &mut Planner)
    requires { (max_hops ≤ length numbers.now)
        × FlowOk (get_or numbers.now 0 0) (get_or numbers.now 1 0) (get_or numbers.now 2 0) (get_or numbers.now 3 0) (length route.now)
        × JitterOk (get_or numbers.now 0 0) (get_or numbers.now 4 0)
        × (length route.now ≤ first_failing port_test route.now) }
    ensures { tables.new ≡ record tables.old {
      periods = set tables.old.periods (get_or numbers.now 0 0 - 1) (get_or numbers.now 1 0);
      counts = set tables.old.counts (get_or numbers.now 0 0 - 1) (get_or numbers.now 2 0);
      lengths = set tables.old.lengths (get_or numbers.now 0 0 - 1) (get_or numbers.now 3 0);
      jitters = set tables.old.jitters (get_or numbers.now 0 0 - 1) (get_or numbers.now 4 0);
      hops = set tables.old.hops (get_or numbers.now 0 0 - 1) (length route.now);
      routes = sets tables.old.routes ((get_or numbers.now 0 0 - 1) * route_stride) route.now;
    } }
{
    let slot = slot_of(numbers);
    tables.periods[slot] = numbers[1] as u32;
    tables.counts[slot] = numbers[2] as u16;
    tables.lengths[slot] = numbers[3] as u16;
    tables.jitters[slot] = numbers[4] as u32;
    tables.hops[slot] = route.len() as u8;
    store_route(&mut tables.routes, slot * STRIDE, route);
}
