// Whether the slots of the flows are empty or in range, with routes over distinct ports of the plan, and whether one holds a flow.
ghost use Rattle.std.specs.Prelude.{◌≡◌, ◌&&◌, ◌+◌, ◌*◌, ◌≤◌, ◌<◌, eqb};
ghost use Rattle.cqf.specs.Bounded.{any_to, all_to, distinct, every, sublist};
ghost use Rattle.cqf.specs.Limits.{flow_slots, route_stride, period_ok, count_ok, length_ok, jitter_ok, hops_ok};
ghost use Rattle.cqf.specs.Plan.{port_in, present, valid_flow};
ghost use Rattle.tables.specs.Lent.{plan_lent};

use crate::{FLOWS, Lent, PORTS, STRIDE, columns};
use numbers::limits::{count_ok, hops_ok, jitter_ok, length_ok, period_ok};

const LAST_PORT: u8 = numbers::limits::MAX_PORT as u8;

// Whether each port of a route is in the plan and stands in the route once.
fn valid_route(rates: &columns::Rates, routes: &columns::Routes, base: usize, hops: usize) -> bool
    requires { base + hops ≤ flow_slots * route_stride }
    ensures { result ≡ every (port_in rates.now) (sublist routes.now base hops) && distinct
        (sublist routes.now base hops) }
{
    let mut seen = [0u8; PORTS];
    for i in 0..hops {
        let n = routes[base + i];
        if n < 1 || LAST_PORT < n {
            return false;
        }
        let q = n as usize - 1;
        if rates[q] == 0 || seen[q] != 0 {
            return false;
        }
        seen[q] = 1;
    }
    true
}

// Whether the numbers of a flow are in range.
fn flow_in_range(period: u32, count: u16, bytes: u16, jitter: u32, hops: u8) -> bool
    ensures { result ≡ period_ok period && count_ok count && length_ok bytes && jitter_ok jitter && hops_ok hops }
{
    period_ok(period)
        && count_ok(count)
        && length_ok(bytes)
        && jitter_ok(jitter)
        && hops_ok(hops as usize)
}

// Whether what stands beside a period of 0 is that of an empty slot.
fn is_empty(count: u16, bytes: u16, jitter: u32, hops: u8) -> bool
    ensures { result ≡ eqb count 0 && eqb bytes 0 && eqb jitter 0 && eqb hops 0 }
{
    count == 0 && bytes == 0 && jitter == 0 && hops == 0
}

// Whether a flow's slot is empty, or holds a flow in range over distinct ports of the plan.
fn valid_flow(lent: Lent, f: usize) -> bool
    requires { f < flow_slots }
    ensures { result ≡ valid_flow (plan_lent lent.entry) f }
{
    let period = lent.periods[f];
    let count = lent.counts[f];
    let bytes = lent.lengths[f];
    let jitter = lent.jitters[f];
    let hops = lent.hops[f];
    if period == 0 {
        return is_empty(count, bytes, jitter, hops);
    }
    flow_in_range(period, count, bytes, jitter, hops)
        && valid_route(lent.rates, lent.routes, f * STRIDE, hops as usize)
}

pub(crate) fn valid_flows(lent: Lent) -> bool
    ensures { result ≡ all_to flow_slots (valid_flow (plan_lent lent.entry)) }
{
    for f in 0..FLOWS {
        if !valid_flow(lent, f) {
            return false;
        }
    }
    true
}

pub(crate) fn any_present(lent: Lent) -> bool
    ensures { result ≡ any_to flow_slots (present (plan_lent lent.entry)) }
{
    for period in lent.periods.iter() {
        if *period != 0 {
            return true;
        }
    }
    false
}
