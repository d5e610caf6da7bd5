// The lines of the flows, by rising number.
ghost use Rattle.std.specs.Prelude.{◌≡◌, map, ◌+◌, ◌*◌, ◌≤◌, ◌<◌, length};
ghost use Rattle.cqf.specs.Limits.{flow_slots, max_hops};
ghost use Rattle.cqf.specs.Plan.{route_of};
ghost use Rattle.plan_text.specs.Print.{digits, lines_bytes, lines_to};
ghost use Rattle.tables.specs.Lent.{plan_lent};
ghost use Rattle.text_writing.specs.Puts.{Puts, far_line, far_text};
ghost use Rattle.text_writing.specs.Bytes.{spaced, flow_number_bytes, flow_bytes, most_hop, most_numbers, most_flow, flow_at};

use crate::number::put_bytes;
use crate::word::{put_end, put_first, put_number, put_pair, put_unless};
use tables::{FLOWS, Held};

// The ports of a route.
fn put_route(out: &mut [u8], at: usize, route: &[u8]) -> usize
    requires { at + most_hop * length route.now ≤ far_line }
    ensures { Puts (most_hop * length route.now) (spaced (map digits route.now)) out.old at result out.new }
{
    let mut next = at;
    for port in route {
        next = put_number(out, next, u32::from(*port));
    }
    next
}

// The numbers of a flow's line, but for its route.
#[derive(Clone, Copy)]
struct Flow {
    number: u32,
    period: u32,
    count: u32,
    bytes: u32,
    jitter: u32,
}

// The line of a flow up to its route.
fn put_flow_numbers(out: &mut [u8], at: usize, flow: Flow) -> usize
    requires { at ≤ far_text }
    ensures { Puts most_numbers (flow_number_bytes flow.number flow.period flow.count flow.bytes flow.jitter) out.old at result out.new }
{
    let named = put_first(out, at, b"flow", flow.number);
    let timed = put_pair(out, named, b"period", flow.period);
    let counted = put_unless(out, timed, b"count", flow.count, 1);
    let sized = put_pair(out, counted, b"length", flow.bytes);
    put_unless(out, sized, b"jitter", flow.jitter, 0)
}

// The line of a flow with these numbers and this route.
fn put_flow(out: &mut [u8], at: usize, flow: Flow, route: &[u8]) -> usize
    requires { (at ≤ far_text) × (length route.now ≤ max_hops) }
    ensures { Puts most_flow (flow_bytes flow.number flow.period flow.count flow.bytes flow.jitter route.now) out.old at result out.new }
{
    let numbered = put_flow_numbers(out, at, flow);
    let begun = put_bytes(out, numbered, b" route");
    let routed = put_route(out, begun, route);
    put_end(out, routed)
}

// The line of a slot, if it holds a flow.
fn put_flow_slot(held: Held, slot: usize, out: &mut [u8], at: usize) -> usize
    requires { (slot < flow_slots) × (at ≤ far_text) }
    ensures { Puts most_flow (lines_bytes (flow_at (plan_lent held.entry.lent) slot)) out.old at result out.new }
{
    let lent = held.lent;
    let period = lent.periods[slot];
    if period == 0 {
        return at;
    }
    let flow = Flow {
        number: (slot + 1) as u32,
        period,
        count: u32::from(lent.counts[slot]),
        bytes: u32::from(lent.lengths[slot]),
        jitter: lent.jitters[slot],
    };
    put_flow(out, at, flow, held.route(slot))
}

pub(crate) fn put_flows(held: Held, out: &mut [u8], at: usize) -> usize
    requires { at + flow_slots * most_flow ≤ far_text }
    ensures { Puts (flow_slots * most_flow) (lines_bytes (lines_to flow_slots (flow_at (plan_lent held.entry.lent)))) out.old at result out.new }
{
    let mut next = at;
    for slot in 0..FLOWS {
        next = put_flow_slot(held, slot, out, next);
    }
    next
}
