// The demand of one port at a duration, in bits.
ghost use Rattle.std.specs.Prelude.{◌≡◌, ◌-◌, ◌*◌, ◌^◌, ◌≤◌, ◌<◌, min};
ghost use Rattle.cqf.specs.Limits.{port_slots, flow_slots, min_period, max_period, max_count, max_length, max_jitter, max_extra};
ghost use Rattle.cqf.specs.Overflow.{most_widened};
ghost use Rattle.cqf.specs.Plan.{crosses};
ghost use Rattle.cqf.specs.Port.{bits_of};
ghost use Rattle.cqf.specs.Condition.{frames_by, demand};
ghost use Rattle.tables.specs.Lent.{plan_lent};

use super::demand::{flow_frames, held_frames};
use numbers::clock::widened;
use numbers::frame::wire_bits;
use tables::{FLOWS, Held, STRIDE};

// The wire bits of the frames that a flow brings to a port, whatever its numbers; the largest number of 64 bits where they are more.
pub fn flow_bits(period: u32, count: u16, bytes: u16, jitter: u32, extra: u8, widened: u32) -> u64
    ensures bits { result ≡ min (frames_by count widened jitter period * bits_of bytes extra) (2 ^ 64 - 1) }
    ensures in_range { (min_period ≤ period)
        → (period ≤ max_period)
        → (count ≤ max_count)
        → (bytes ≤ max_length)
        → (jitter ≤ max_jitter)
        → (extra ≤ max_extra)
        → (widened ≤ most_widened)
        → result ≡ frames_by count widened jitter period * bits_of bytes extra }
{
    let frames = flow_frames(period, count, jitter, widened);
    frames.saturating_mul(wire_bits(bytes, extra))
}

// The same of the numbers of a plan that is held, whose ranges it leans on.
pub(crate) fn held_bits(
    period: u32,
    count: u16,
    bytes: u16,
    jitter: u32,
    extra: u8,
    widened: u32,
) -> u64
    requires { (min_period ≤ period)
        × (period ≤ max_period)
        × (count ≤ max_count)
        × (bytes ≤ max_length)
        × (jitter ≤ max_jitter)
        × (extra ≤ max_extra)
        × (widened ≤ most_widened) }
    ensures { result ≡ frames_by count widened jitter period * bits_of bytes extra }
{
    held_frames(period, count, jitter, widened) * wire_bits(bytes, extra)
}

// Whether the route of the flow in slot f holds the port in slot q. For speed two places at a time, and the
// last one of an odd number.
pub(crate) fn route_holds(held: Held, f: usize, q: usize) -> bool
    requires { (f < flow_slots) × (q < port_slots) }
    ensures { result ≡ crosses (plan_lent held.entry.lent) f q }
{
    let routes = held.lent.routes;
    let base = f * STRIDE;
    let hops = held.lent.hops[f] as usize;
    let port = (q + 1) as u8;
    let even = hops - hops % 2;
    let mut i: usize = 0;
    while i < even {
        if port == routes[base + i] || port == routes[base + i + 1] {
            return true;
        }
        i += 2;
    }
    i != hops && port == routes[base + i]
}

// The demand of the port in slot q.
pub(crate) fn port_demand(held: Held, duration: u64, q: usize) -> u64
    requires { (duration ≤ held.lent.top) × (q < port_slots) }
    ensures { result ≡ demand (plan_lent held.entry.lent) q duration }
{
    let lent = held.lent;
    let at = duration as u32;
    let over = widened(lent.clock, at) as u32;
    let mut bits: u64 = 0;
    for f in 0..FLOWS {
        if route_holds(held, f, q) {
            bits += held_bits(
                lent.periods[f],
                lent.counts[f],
                lent.lengths[f],
                lent.jitters[f],
                lent.extras[q],
                over,
            );
        }
    }
    bits
}
