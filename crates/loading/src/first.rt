// The first field in the bytes that is sought, as test 9 and the way back to the older form want it.

ghost use Rattle.std.specs.Prelude.{◌≡◌, true, not, ◌&&◌, ltb, get_or, ◌∷◌};
ghost use Rattle.cqf.specs.Bounded.{every, within};
ghost use Rattle.cqf.specs.Plan.{port_in};
ghost use Rattle.plan.specs.Bytes.{tag_at, whole_at};
ghost use Rattle.plan.specs.Field.{route_ports};
ghost use Rattle.plan_reading.specs.Reading.{names_absent, jitter_absent, extra_absent, first_field, first_absent};
ghost use Rattle.plan_reading.specs.Overlong.{overlong};
ghost use Rattle.loading.specs.Loading.{sought_in};

use numbers::limits::between;
use plan::layout::{
    EXTRA_TAG, FLOW_SIZE, FLOW_TAG, FLOW2_SIZE, FLOW2_TAG, HEAD_SIZE, JITTER_TAG, MAX_HOPS,
};
use plan::number::first_number;
use plan::route::{route_bytes, route_len, route_port};
use plan::split::{field_value, split_head};
use tables::columns;

// What is sought: a flow whose route names a port without a rate here, the jitter of a flow without a period here, extra bytes of such a
// port, or a flow over more ports than the older form allows. An enum: each closure in its place would repeat the contract of a whole field.
#[derive(Clone, Copy)]
pub enum Sought<'a> {
    AbsentPort(&'a columns::Rates),
    AbsentJitterFlow(&'a columns::Periods),
    AbsentExtraPort(&'a columns::Rates),
    LongRoute,
}

// Whether a port or flow of this number is in the plan, by its rate or its period.
fn is_in<const N: usize>(column: &[u32; N], number: u16) -> bool
    ensures { result ≡ (within 1 N number && ltb 0 (get_or (0 ∷ column.now) number 0)) }
{
    between(1, N as u64, number as u64) && 0 < column[(number - 1) as usize]
}

// Whether a route names a port not in the plan.
fn route_absent(route: &[u8], rates: &columns::Rates) -> bool
    ensures { result ≡ not (every (port_in rates.now) (route_ports route.now)) }
{
    for i in 0..route_len(route) {
        if !is_in(rates, route_port(route, i)) {
            return true;
        }
    }
    false
}

// The same of the whole field at this offset, which may be no flow.
fn names_absent(plan: &[u8], at: usize, tag: u8, rates: &columns::Rates) -> bool
    requires { (whole_at plan.now at ≡ true) × (tag ≡ tag_at plan.now at) }
    ensures { result ≡ names_absent rates.now plan.now at }
{
    match tag {
        FLOW_TAG => route_absent(route_bytes(field_value(plan, at), FLOW_SIZE), rates),
        FLOW2_TAG => route_absent(route_bytes(field_value(plan, at), FLOW2_SIZE), rates),
        _ => false,
    }
}

// Whether the whole field at this offset says the jitter of a flow not in the plan. This test and the next are one line each over
// definitions of their own: one function of both would take the tag, the column and the definition.
fn jitter_absent(plan: &[u8], at: usize, tag: u8, periods: &columns::Periods) -> bool
    requires { (whole_at plan.now at ≡ true) × (tag ≡ tag_at plan.now at) }
    ensures { result ≡ jitter_absent periods.now plan.now at }
{
    tag == JITTER_TAG && !is_in(periods, first_number(field_value(plan, at)))
}

// Whether the whole field at this offset says the extra bytes of a port not in the plan.
fn extra_absent(plan: &[u8], at: usize, tag: u8, rates: &columns::Rates) -> bool
    requires { (whole_at plan.now at ≡ true) × (tag ≡ tag_at plan.now at) }
    ensures { result ≡ extra_absent rates.now plan.now at }
{
    tag == EXTRA_TAG && !is_in(rates, first_number(field_value(plan, at)))
}

// Whether the whole field at this offset is a flow over more ports than the older form allows.
fn long_route(plan: &[u8], at: usize, tag: u8) -> bool
    requires { (whole_at plan.now at ≡ true) × (tag ≡ tag_at plan.now at) }
    ensures { result ≡ overlong plan.now at }
{
    tag == FLOW2_TAG && MAX_HOPS < route_len(route_bytes(field_value(plan, at), FLOW2_SIZE))
}

// Whether the whole field at this offset is sought.
fn is_sought(sought: Sought, plan: &[u8], at: usize, tag: u8) -> bool
    requires { (whole_at plan.now at ≡ true) × (tag ≡ tag_at plan.now at) }
    ensures { result ≡ sought_in sought.entry plan.now at }
{
    match sought {
        Sought::AbsentPort(rates) => names_absent(plan, at, tag, rates),
        Sought::AbsentJitterFlow(periods) => jitter_absent(plan, at, tag, periods),
        Sought::AbsentExtraPort(rates) => extra_absent(plan, at, tag, rates),
        Sought::LongRoute => long_route(plan, at, tag),
    }
}

// The offset of the first field that is sought; the plan's length where none is.
pub fn first_field(plan: &[u8], sought: Sought) -> usize
    ensures { result ≡ first_field (sought_in sought.entry) plan.now }
{
    let mut at = 0;
    while let Some(head) = split_head(plan, at) {
        if is_sought(sought, plan, at, head.tag) {
            return at;
        }
        at = at + HEAD_SIZE + head.size;
    }
    plan.len()
}

// Test 9: the first flow that names a port not in the plan; where there is none the first jitter of a flow not in it; where there
// is none either the first extra bytes of a port not in it; the plan's length where there are none of these.
pub(crate) fn first_absent(plan: &[u8], rates: &columns::Rates, periods: &columns::Periods) -> usize
    ensures { result ≡ first_absent rates.now periods.now plan.now }
{
    let route = first_field(plan, Sought::AbsentPort(rates));
    if route < plan.len() {
        return route;
    }
    let jitter = first_field(plan, Sought::AbsentJitterFlow(periods));
    if jitter < plan.len() {
        return jitter;
    }
    first_field(plan, Sought::AbsentExtraPort(rates))
}
