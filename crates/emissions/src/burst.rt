// A flow's part in the bad emission of a port.
ghost use Rattle.std.specs.Prelude.{◌≡◌, cond, ◌+◌, ◌-◌, ◌*◌, ◌/◌, ◌≤◌, ◌<◌, ltb};
ghost use Rattle.std.proofs.Math.Option.{none, some};
ghost use Rattle.cqf.specs.Limits.{port_slots, flow_slots, max_top, max_hops, max_period, max_count};
ghost use Rattle.cqf.specs.Overflow.{most_begun};
ghost use Rattle.cqf.specs.Plan.{period_of};
ghost use Rattle.tables.specs.Lent.{plan_lent};
ghost use Rattle.emissions.specs.Burst.{burst, burst_answer, burst_of, told_burst, instant_is};

use crate::frames::{flow_frames, instant_of};
use crate::hop::{hop_on, latest_hop};
use numbers::clock::widened;
use numbers::limits::between;
use tables::{FLOWS, Held, Lent, PORTS, hold};

// A flow's burst: its cycle, how many frames it has, and the instant of the one that is asked for, if it has that one.
#[derive(Clone, Copy, Debug, PartialEq, Eq)]
pub struct Burst {
    pub cycle: u64,
    pub frames: u64,
    pub instant: Option<u64>,
}

#[derive(Clone, Copy, Debug, PartialEq, Eq)]
pub enum BurstRefusal {
    NoPlan,
    BadDuration,
    BadPort,
    AbsentFlow,
}

// The instant of frame k of a burst of so many frames.
fn instant_in(
    cycle: u64,
    duration: u64,
    count: u16,
    period: u32,
    jitter: u32,
    frames: u64,
    k: u64,
) -> Option<u64>
    requires { (cycle ≤ max_hops)
        × (duration ≤ max_top)
        × (0 < count)
        × (period ≤ max_period)
        × (frames ≤ max_count * most_begun) }
    ensures { instant_is result ≡ cond (ltb k frames) (some (cycle * duration + (k / count * period - jitter))) none }
{
    if k < frames {
        Some(instant_of(cycle, duration, count, period, jitter, k))
    } else {
        None
    }
}

// The frames of a burst: all that the flow brings, where the port stands on its route before the end.
fn frames_if(at: usize, length: usize, brought: u64) -> u64
    ensures { result ≡ cond (ltb at length) brought 0 }
{
    if at < length { brought } else { 0 }
}

// The part of the flow in slot f, for the port in slot q.
fn burst_of(held: Held, duration: u64, q: usize, f: usize, k: u64) -> Burst
    requires { (duration ≤ held.lent.top)
        × (q < port_slots)
        × (f < flow_slots)
        × (0 < period_of (plan_lent held.lent) f) }
    ensures { told_burst result ≡ burst (plan_lent held.entry.lent) duration q f k }
{
    let lent = held.lent;
    let ports = held.route(f);
    let length = ports.len();
    let at = hop_on(ports, q);
    let latest = latest_hop(held, q);
    let cycle = latest.saturating_sub(at) as u64;
    let over = widened(lent.clock, duration as u32) as u32;
    let brought = flow_frames(lent.periods[f], lent.counts[f], lent.jitters[f], over);
    let frames = frames_if(at, length, brought);
    let instant = instant_in(
        cycle,
        duration,
        lent.counts[f],
        lent.periods[f],
        lent.jitters[f],
        frames,
        k,
    );
    Burst {
        cycle,
        frames,
        instant,
    }
}

// A flow's part in the bad emission of a port, and the instant of frame k of it.
pub fn burst_tables(
    lent: Lent,
    duration: u64,
    port: u64,
    flow: u64,
    k: u64,
) -> Result<Burst, BurstRefusal>
    ensures { burst_of result ≡ burst_answer (plan_lent lent.entry) duration port flow k }
{
    let Some(held) = hold(lent) else {
        return Err(BurstRefusal::NoPlan);
    };
    if !between(1, u64::from(lent.top), duration) {
        return Err(BurstRefusal::BadDuration);
    }
    if !between(1, PORTS as u64, port) {
        return Err(BurstRefusal::BadPort);
    }
    if !between(1, FLOWS as u64, flow) {
        return Err(BurstRefusal::AbsentFlow);
    }
    let f = (flow - 1) as usize;
    if lent.periods[f] == 0 {
        return Err(BurstRefusal::AbsentFlow);
    }
    Ok(burst_of(held, duration, (port - 1) as usize, f, k))
}
