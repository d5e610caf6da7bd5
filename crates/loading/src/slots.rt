// The numbers of a field put into the slot of its port or flow.

ghost use Rattle.std.specs.Prelude.{◌+◌, ◌*◌, ◌≤◌, ◌≡◌};
ghost use Rattle.std.proofs.lemmas.List.Edits.{sets};
ghost use Rattle.cqf.specs.Limits.{flow_slots, route_stride};
ghost use Rattle.plan.specs.Field.{route_ports};
ghost use Rattle.plan_reading.specs.Part.{port, flow, extra, jitter};
ghost use Rattle.plan_reading.specs.Store.{store};
ghost use Rattle.plan_reading.specs.Ranges.{PortOk, FlowOk, ExtraOk, JitterOk, RouteOk};
ghost use Rattle.loading.specs.Loading.{tables_of};

use crate::repeat::low_byte;
use plan::{Extra, Flow, Flow2, Jitter, Port, Port2};
use tables::{Planner, STRIDE, columns};

#[tactic(auto, unfolding(plan_reading::specs::Store::store))]
pub(crate) fn store_port(tables: &mut Planner, x: Port)
    requires { PortOk x.number x.rate x.blocking }
    ensures { tables_of tables.new ≡ store (tables_of tables.old) (port x.number x.rate x.blocking) }
{
    let slot = (x.number - 1) as usize;
    tables.rates[slot] = x.rate;
    tables.blockings[slot] = x.blocking;
}

#[tactic(auto, unfolding(plan_reading::specs::Store::store))]
pub(crate) fn store_extra(tables: &mut Planner, x: Extra)
    requires { ExtraOk x.number x.extra }
    ensures { tables_of tables.new ≡ store (tables_of tables.old) (extra x.number x.extra) }
{
    let slot = (x.number - 1) as usize;
    tables.extras[slot] = x.extra as u8;
}

#[tactic(auto, unfolding(plan_reading::specs::Store::store))]
pub(crate) fn store_jitter(tables: &mut Planner, x: Jitter)
    requires { JitterOk x.number x.jitter }
    ensures { tables_of tables.new ≡ store (tables_of tables.old) (jitter x.number x.jitter) }
{
    let slot = (x.number - 1) as usize;
    tables.jitters[slot] = x.jitter;
}

// The ports of a route, copied to position base of the routes and on.
fn store_route(routes: &mut columns::Routes, base: usize, route: &[u8], hops: usize)
    requires { (base + hops ≤ flow_slots * route_stride) × RouteOk hops (route_ports route.now) }
    ensures { routes.new ≡ sets routes.old base (route_ports route.now) }
{
    for i in 0..hops {
        routes[base + i] = low_byte(route, i);
    }
}

#[tactic(auto, unfolding(plan_reading::specs::Store::store))]
pub(crate) fn store_flow(tables: &mut Planner, x: Flow, route: &[u8])
    requires numbers { FlowOk x.number x.period x.count x.length x.hops }
    requires route { RouteOk x.hops (route_ports route.now) }
    ensures { tables_of tables.new
        ≡ store (tables_of tables.old) (flow x.number x.period x.count x.length (route_ports route.now)) }
{
    let slot = (x.number - 1) as usize;
    tables.periods[slot] = x.period;
    tables.counts[slot] = x.count;
    tables.lengths[slot] = x.length;
    tables.hops[slot] = x.hops;
    store_route(&mut tables.routes, slot * STRIDE, route, x.hops as usize);
}

// A port of the newer form, with its extra bytes.
pub(crate) fn store_port2(tables: &mut Planner, x: Port2)
    requires port { PortOk x.number x.rate x.blocking }
    requires extra { ExtraOk x.number x.extra }
    ensures { tables_of tables.new
        ≡ store (store (tables_of tables.old) (port x.number x.rate x.blocking)) (extra x.number x.extra) }
{
    let port = Port {
        number: x.number,
        rate: x.rate,
        blocking: x.blocking,
    };
    store_port(tables, port);
    let extra = Extra {
        number: x.number,
        extra: x.extra,
    };
    store_extra(tables, extra);
}

// A flow of the newer form, with its jitter.
pub(crate) fn store_flow2(tables: &mut Planner, x: Flow2, route: &[u8])
    requires numbers { FlowOk x.number x.period x.count x.length x.hops }
    requires route { RouteOk x.hops (route_ports route.now) }
    requires jitter { JitterOk x.number x.jitter }
    ensures { tables_of tables.new
        ≡ store (store (tables_of tables.old) (flow x.number x.period x.count x.length (route_ports route.now)))
        (jitter x.number x.jitter) }
{
    let flow = Flow {
        number: x.number,
        period: x.period,
        count: x.count,
        length: x.length,
        hops: x.hops,
    };
    store_flow(tables, flow, route);
    let jitter = Jitter {
        number: x.number,
        jitter: x.jitter,
    };
    store_jitter(tables, jitter);
}
