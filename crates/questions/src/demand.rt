// Each port's demand at a duration, in bits: one pass over the flows and the ports of their routes.
ghost use Rattle.std.specs.Prelude.{◌≡◌, ℕ, ◌+◌, ◌*◌, ◌^◌, ◌≤◌, ◌<◌, length, get_or};
ghost use Rattle.cqf.specs.Bounded.{tabulate};
ghost use Rattle.cqf.specs.Limits.{port_slots, flow_slots, min_period, max_period, max_count, max_jitter};
ghost use Rattle.cqf.specs.Overflow.{most_widened};
ghost use Rattle.cqf.specs.Plan.{route_of};
ghost use Rattle.cqf.specs.Port.{bits_of};
ghost use Rattle.cqf.specs.Condition.{begun_by, frames_by, demand};
ghost use Rattle.tables.specs.Columns.{Marked};
ghost use Rattle.tables.specs.Lent.{plan_lent};

use numbers::clock::widened;
use numbers::frame::wire_bits;
use tables::{FLOWS, Held, STRIDE};

// The periods that begin in a length of time or within the jitter before it: the quotient rounded up.
fn periods_begun(widened: u32, jitter: u32, period: u32) -> u32
    requires { (min_period ≤ period) × (period ≤ max_period) × (jitter ≤ max_jitter) × (widened ≤ most_widened) }
    ensures { result ≡ begun_by widened jitter period }
{
    (widened + jitter + (period - 1)) / period
}

// The same of any numbers, in 64 bits; 0 for a period of 0, as of any quotient by 0.
fn wide_begun(widened: u32, jitter: u32, period: u32) -> u64
    ensures { result ≡ begun_by widened jitter period }
{
    if period == 0 {
        return 0;
    }
    (u64::from(widened) + u64::from(jitter) + u64::from(period - 1)) / u64::from(period)
}

// The frames that a flow brings in a length of time, whatever its numbers.
pub fn flow_frames(period: u32, count: u16, jitter: u32, widened: u32) -> u64
    ensures { result ≡ frames_by count widened jitter period }
{
    let begun = wide_begun(widened, jitter, period);
    u64::from(count) * begun
}

// The same of the numbers of a plan that is held, whose ranges it leans on.
pub(crate) fn held_frames(period: u32, count: u16, jitter: u32, widened: u32) -> u64
    requires { (min_period ≤ period)
        × (period ≤ max_period)
        × (count ≤ max_count)
        × (jitter ≤ max_jitter)
        × (widened ≤ most_widened) }
    ensures { result ≡ frames_by count widened jitter period }
{
    let begun = periods_begun(widened, jitter, period);
    (count as u64) * (begun as u64)
}

// The wire bits of a flow's frames are added at each port of its route, with what that port adds to each frame.
fn add_route(held: Held, f: usize, frames: u64, out: &mut [u64])
    requires slot { (f < flow_slots) × (length out.old ≡ port_slots) }
    requires by_index { (q : ℕ) → q < port_slots → get_or out.old q 0 + frames * bits_of (get_or held.lent.lengths.now f 0) (get_or held.lent.extras.now q 0) < 2 ^ 64 }
    ensures { Marked out.old out.new (route_of (plan_lent held.entry.lent) f)
        (λ q. frames * bits_of (get_or held.entry.lent.lengths.now f 0) (get_or held.entry.lent.extras.now q 0)) }
{
    let lent = held.lent;
    let bytes = lent.lengths[f];
    let base = f * STRIDE;
    for i in 0..lent.hops[f] as usize {
        let q = lent.routes[base + i] as usize - 1;
        out[q] += frames * wire_bits(bytes, lent.extras[q]);
    }
}

fn clear(out: &mut [u64])
    ensures { (q : ℕ) → q < length out.old → get_or out.new q 0 ≡ 0 }
{
    for bits in out.iter_mut() {
        *bits = 0;
    }
}

// Port n's demand goes to position n - 1; what stood there before does not matter.
pub(crate) fn demands(held: Held, duration: u64, out: &mut [u64])
    requires { (duration ≤ held.lent.top) × (length out.old ≡ port_slots) }
    ensures { out.new ≡ tabulate port_slots (λ q. demand (plan_lent held.entry.lent) q duration) }
{
    clear(out);
    let lent = held.lent;
    let at = duration as u32;
    let over = widened(lent.clock, at) as u32;
    for f in 0..FLOWS {
        let period = lent.periods[f];
        if period != 0 {
            let frames = held_frames(period, lent.counts[f], lent.jitters[f], over);
            add_route(held, f, frames, out);
        }
    }
}
