// The route of a field that was read, its ports in range: test 7, and the ports marked that a route names. Each port is looked at once.

ghost use Rattle.std.specs.Prelude.{◌<◌, ◌≡◌, true, false, not, length};
ghost use Rattle.cqf.specs.Bounded.{every, distinct};
ghost use Rattle.cqf.specs.Limits.{port_slots, port_ok};
ghost use Rattle.cqf.specs.Plan.{port_in};
ghost use Rattle.cqf.specs.Form.{Form};
ghost use Rattle.plan.specs.Field.{field, field_at, route_length, route_ports, route_port};
ghost use Rattle.plan.specs.Answer.{field_of};
ghost use Rattle.plan_reading.specs.Reading.{route_at};
ghost use Rattle.loading.specs.Loading.{Covers, MarksOnly};

use plan::Field;
use plan::layout::{HEAD_SIZE, HOP_SIZE, route_start};
use plan::route::route_len;
use tables::PORTS;

// The bytes of the route of the field that was read at this offset: those behind its other numbers, none where it has no route.
pub(crate) fn field_route(plan: &[u8], at: usize, x: Field, next: usize) -> &[u8]
    requires { (form : Form) × (field_at form plan.now at ≡ field (field_of x) next) }
    ensures { route_ports result.now ≡ route_at (field_of x).kind plan.now at }
{
    let start = at + HEAD_SIZE + route_start(x);
    &plan[start..next]
}

// Port i of such a route: its high byte is 0.
pub(crate) fn low_byte(route: &[u8], i: usize) -> u8
    requires { (i < route_length route.now) × (every port_ok (route_ports route.now) ≡ true) }
    ensures { result ≡ route_port route.now i }
{
    route[HOP_SIZE * i + 1]
}

// Test 7: whether a port stands in a route twice. Where none does, each of them is marked as named, beside those that were.
pub(crate) fn mark_named(route: &[u8], named: &mut [u8; PORTS]) -> bool
    requires { (every port_ok (route_ports route.now) ≡ true) × (length named.old ≡ port_slots) }
    ensures { (result ≡ not (distinct (route_ports route.now)))
        × (length named.new ≡ port_slots)
        × Covers named.old named.new
        × (result ≡ false → every (port_in named.new) (route_ports route.now) ≡ true)
        × MarksOnly named.old named.new (route_ports route.now) }
{
    let mut seen = [0u8; PORTS];
    for i in 0..route_len(route) {
        let slot = (low_byte(route, i) - 1) as usize;
        if seen[slot] != 0 {
            return true;
        }
        seen[slot] = 1;
        named[slot] = 1;
    }
    false
}
