// How far the clocks of sources and ports differ, and the length over which frames are counted with that.
ghost use Rattle.std.specs.Prelude.{◌≡◌, ◌*◌, ◌^◌, ◌≤◌};
ghost use Rattle.cqf.specs.Limits.{million, drift_ok, timing_jitter_ok, sync_error_ok};
ghost use Rattle.cqf.specs.Plan.{clock_ok};
ghost use Rattle.cqf.specs.Ceil.{ceil_div};
ghost use Rattle.cqf.specs.Widened.{widened_by};
ghost use Rattle.numbers.specs.Clock.{clock_of};

use crate::limits::between;

// Drift in parts per million, timing jitter and synchronization error in ns.
#[repr(C)]
#[derive(Clone, Copy)]
pub struct Clock {
    pub drift: u32,
    pub timing_jitter: u32,
    pub sync_error: u32,
}

const MAX_DRIFT: u64 = 1_000;

const MAX_TIMING_JITTER: u64 = 1_000;

const MAX_SYNC_ERROR: u64 = 1_000_000;

const MILLION: u64 = 1_000_000;

fn drift_ok(n: u32) -> bool
    ensures { result ≡ drift_ok n }
{
    between(0, MAX_DRIFT, n as u64)
}

fn timing_jitter_ok(n: u32) -> bool
    ensures { result ≡ timing_jitter_ok n }
{
    between(0, MAX_TIMING_JITTER, n as u64)
}

fn sync_error_ok(n: u32) -> bool
    ensures { result ≡ sync_error_ok n }
{
    between(0, MAX_SYNC_ERROR, n as u64)
}

pub fn clock_ok(clock: Clock) -> bool
    ensures { result ≡ clock_ok (clock_of clock) }
{
    drift_ok(clock.drift)
        && timing_jitter_ok(clock.timing_jitter)
        && sync_error_ok(clock.sync_error)
}

// What drift adds to a duration, rounded up.
fn drifted(duration: u32, drift: u32) -> u64
    ensures adds { result ≡ ceil_div (duration * drift) million }
    ensures most { result ≤ 2 ^ 62 }
{
    ((duration as u64) * (drift as u64) + (MILLION - 1)) / MILLION
}

// The smaller of what drift and timing jitter make of a duration, and what the synchronization error at its two ends does.
pub fn widened(clock: Clock, duration: u32) -> u64
    ensures { result ≡ widened_by (clock_of clock) duration }
{
    let apart = duration as u64 + drifted(duration, clock.drift) + clock.timing_jitter as u64;
    let offset = duration as u64 + 2 * (clock.sync_error as u64);
    apart.min(offset)
}
