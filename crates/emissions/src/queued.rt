// What each port must send in a cycle of the bad emission.
ghost use Rattle.std.specs.Prelude.{◌≡◌, ℕ, ◌*◌, ◌≤◌, ◌<◌, length, get_or};
ghost use Rattle.cqf.specs.Limits.{port_slots, min_period, max_period, max_count, max_length, max_jitter, max_extra};
ghost use Rattle.cqf.specs.Overflow.{most_widened};
ghost use Rattle.cqf.specs.Port.{bits_of};
ghost use Rattle.cqf.specs.Condition.{frames_by};
ghost use Rattle.tables.specs.Lent.{plan_lent};
ghost use Rattle.emissions.specs.BadEmission.{latest_hop, burst_bits};
ghost use Rattle.emissions.specs.Queued.{queued_port};

use crate::frames::flow_frames;
use crate::hop::hop_on;
use numbers::clock::widened;
use numbers::frame::wire_bits;
use tables::{FLOWS, Held, PORTS};

// The port at a place of a route, 0 behind its end.
fn port_at(route: &[u8], i: usize) -> u8
    ensures { result ≡ get_or route.now i 0 }
{
    if i < route.len() { route[i] } else { 0 }
}

// The port at which the burst of a flow is queued in cycle c. It is 0 for none, as the definition has it: ports count from 1.
fn queued_port(route: &[u8], q: usize, latest: u64, c: u64) -> u8
    requires { q < port_slots }
    ensures { result ≡ queued_port route.now q latest c }
{
    let at = hop_on(route, q);
    if route.len() <= at {
        return 0;
    }
    let own = latest.saturating_sub(at as u64);
    if c <= own {
        return 0;
    }
    port_at(route, (c - own - 1) as usize)
}

// The wire bits of the frames that a flow brings to a port.
// That of `questions` takes any numbers; this one leans on ranges that its callers know, as `held_bits` does there.
fn flow_bits(period: u32, count: u16, bytes: u16, jitter: u32, extra: u8, widened: u32) -> u64
    requires { (min_period ≤ period)
        × (period ≤ max_period)
        × (count ≤ max_count)
        × (bytes ≤ max_length)
        × (jitter ≤ max_jitter)
        × (extra ≤ max_extra)
        × (widened ≤ most_widened) }
    ensures { result ≡ frames_by count widened jitter period * bits_of bytes extra }
{
    flow_frames(period, count, jitter, widened) * wire_bits(bytes, extra)
}

// The bits that each port must send in cycle c of the bad emission of the port in slot q: port n at position n - 1.
pub(crate) fn cycle_bits(
    held: Held,
    duration: u64,
    q: usize,
    latest: u64,
    c: u64,
    bits: &mut [u64; PORTS],
)
    requires { (duration ≤ held.lent.top)
        × (q < port_slots)
        × (latest ≡ latest_hop (plan_lent held.lent) q)
        × (length bits.old ≡ port_slots)
        × ((r : ℕ) → r < port_slots → get_or bits.old r 0 ≡ 0) }
    ensures { (r : ℕ) → r < port_slots → get_or bits.new r 0 ≡ burst_bits (plan_lent held.entry.lent) duration q c r }
{
    let over = widened(held.lent.clock, duration as u32) as u32;
    for f in 0..FLOWS {
        let n = usize::from(queued_port(held.route(f), q, latest, c));
        if n != 0 {
            let r = n - 1;
            let more = flow_bits(
                held.lent.periods[f],
                held.lent.counts[f],
                held.lent.lengths[f],
                held.lent.jitters[f],
                held.lent.extras[r],
                over,
            );
            bits[r] += more;
        }
    }
}
