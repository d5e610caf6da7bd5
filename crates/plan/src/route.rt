// A flow's route: the bytes behind the other numbers of its field's value, two for each port.

ghost use Rattle.std.specs.Prelude.{◌≡◌, not, drop};
ghost use Rattle.cqf.specs.Bounded.{elem, every, distinct};
ghost use Rattle.cqf.specs.Limits.{port_ok};
ghost use Rattle.plan.specs.Field.{route_length, route_ports, route_port, repeats};
ghost use Rattle.plan.specs.Answer.{form_of};

use crate::Form;
use crate::layout::{HOP_SIZE, flow_start};
use crate::number::be16;
use numbers::limits::port_ok;

// The route's own bytes in a value whose other numbers end there; none where the value is too short for them.
pub fn route_bytes(value: &[u8], start: usize) -> &[u8]
    ensures { result.now ≡ drop start value.now }
{
    if value.len() < start {
        return &value[..0];
    }
    &value[start..]
}

// How many ports a route's bytes name.
pub fn route_len(route: &[u8]) -> usize
    ensures { result ≡ route_length route.now }
{
    route.len() / HOP_SIZE
}

// Port i of the route, counted from 0; 0 past its end.
pub fn route_port(route: &[u8], i: usize) -> u16
    ensures { result ≡ route_port route.now i }
{
    if route_len(route) <= i {
        return 0;
    }
    be16(route, HOP_SIZE * i)
}

// Whether each port number of the route is in range.
pub(crate) fn route_in_range(route: &[u8]) -> bool
    ensures { result ≡ every port_ok (route_ports route.now) }
{
    for i in 0..route_len(route) {
        if !port_ok(route_port(route, i)) {
            return false;
        }
    }
    true
}

// Whether the route holds this port at position from or after it.
fn names_from(route: &[u8], from: usize, port: u16) -> bool
    ensures { result ≡ elem port (drop from (route_ports route.now)) }
{
    for k in from..route_len(route) {
        if port == route_port(route, k) {
            return true;
        }
    }
    false
}

// Whether the route holds a port twice.
pub fn route_repeats(route: &[u8]) -> bool
    ensures { result ≡ not (distinct (route_ports route.now)) }
{
    for i in 0..route_len(route) {
        if names_from(route, i + 1, route_port(route, i)) {
            return true;
        }
    }
    false
}

// Test 7 of the value of a flow, in a plan of this form.
pub fn repeats_port(form: Form, value: &[u8]) -> bool
    ensures { result ≡ repeats (form_of form) value.now }
{
    route_repeats(route_bytes(value, flow_start(form)))
}
