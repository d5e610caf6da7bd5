// What if the frames of one flow had another length? The slacks along its route.
ghost use Rattle.std.specs.Prelude.{◌≡◌, true, ◌&&◌, ◌-◌, ◌≤◌, ◌<◌, ltb, length, get_or};
ghost use Rattle.cqf.specs.Limits.{port_slots, flow_slots, max_length, flow_ok};
ghost use Rattle.cqf.specs.Plan.{crosses};
ghost use Rattle.cqf.specs.Condition.{demand};
ghost use Rattle.cqf.specs.Reprice.{with_length, repriced};
ghost use Rattle.tables.specs.Lent.{plan_lent};
ghost use Rattle.questions.specs.Answer.{reprice_of};
ghost use Rattle.questions.specs.Reprice.{Reprices};

use super::port_demand::{held_bits, port_demand};
use super::port_slack::port_slack;
use numbers::clock::widened;
use numbers::limits::{MAX_FLOW, MAX_LENGTH, MIN_LENGTH, between};
use numbers::port::window;
use tables::{Held, Lent, PORTS, STRIDE, columns, hold};

#[derive(Clone, Copy)]
pub enum RepriceRefusal {
    NoPlan,
    BadDuration,
    ShortList,
    BadLength,
    AbsentFlow,
}

// The demand of the port in slot q with frames of this many bytes for the flow in slot f, which crosses it.
fn changed_demand(held: Held, duration: u64, f: usize, bytes: u16, q: usize) -> u64
    requires range { (duration ≤ held.lent.top) × (q < port_slots) × (f < flow_slots) × (f < length held.lent.lengths.now) × (bytes ≤ max_length) }
    requires crossing { crosses (plan_lent held.lent) f q ≡ true }
    ensures { result ≡ demand (with_length (plan_lent held.entry.lent) f bytes) q duration }
{
    let lent = held.lent;
    let bits = port_demand(held, duration, q);
    let at = duration as u32;
    let over = widened(lent.clock, at) as u32;
    let period = lent.periods[f];
    let count = lent.counts[f];
    let jitter = lent.jitters[f];
    let extra = lent.extras[q];
    let length = lent.lengths[f];
    let old = held_bits(period, count, length, jitter, extra, over);
    let new = held_bits(period, count, bytes, jitter, extra, over);
    bits - old + new
}

// Each port of the route of the flow in slot f has its slack with frames of this many bytes, port n at position n - 1.
fn reprice_route(held: Held, duration: u64, f: usize, bytes: u16, out: &mut [i64])
    requires { (duration ≤ held.lent.top) × (f < flow_slots) × (f < length held.lent.lengths.now) × (bytes ≤ max_length) × (port_slots ≤ length out.old) }
    ensures { out.new ≡ repriced (plan_lent held.entry.lent) duration f bytes out.old }
{
    let lent = held.lent;
    let available = window(lent.guard, duration);
    let base = f * STRIDE;
    for i in 0..lent.hops[f] as usize {
        let q = lent.routes[base + i] as usize - 1;
        let bits = changed_demand(held, duration, f, bytes, q);
        let rate = lent.rates[q];
        let blocking = lent.blockings[q];
        let extra = lent.extras[q];
        let slack = port_slack(rate, blocking, extra, available, bits);
        out[q] = slack;
    }
}

// Whether a flow of this number is in the plan.
fn holds_flow(periods: &columns::Periods, flow: u64) -> bool
    ensures { result ≡ flow_ok flow && ltb 0 (get_or periods.now (flow - 1) 0) }
{
    between(1, MAX_FLOW, flow) && 0 < periods[(flow - 1) as usize]
}

// What if?
pub fn reprice_tables(
    lent: Lent,
    duration: u64,
    flow: u64,
    bytes: u64,
    out: &mut [i64],
) -> Result<(), RepriceRefusal>
    ensures { Reprices (plan_lent lent.entry) duration flow bytes out.old (reprice_of result) out.new }
{
    let Some(held) = hold(lent) else {
        return Err(RepriceRefusal::NoPlan);
    };
    if !between(1, held.lent.top as u64, duration) {
        return Err(RepriceRefusal::BadDuration);
    }
    if out.len() < PORTS {
        return Err(RepriceRefusal::ShortList);
    }
    if !between(MIN_LENGTH, MAX_LENGTH, bytes) {
        return Err(RepriceRefusal::BadLength);
    }
    if !holds_flow(held.lent.periods, flow) {
        return Err(RepriceRefusal::AbsentFlow);
    }
    let f = (flow - 1) as usize;
    reprice_route(held, duration, f, bytes as u16, out);
    Ok(())
}
