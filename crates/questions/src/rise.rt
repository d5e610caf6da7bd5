// Where the demand rises next: where to look for the end of a run. Nothing that is answered rests on it.
ghost use Rattle.std.specs.Prelude.{◌≤◌, ◌<◌};
ghost use Rattle.questions.specs.Run.{far};

use numbers::clock::{Clock, widened};
use tables::{FLOWS, Lent};

// Above every length over which frames are counted, with a period and a jitter.
const FAR: u64 = 1_099_511_627_776;

const MILLION: u64 = 1_000_000;

// The first length above this one over which a flow begins a further period; an absent flow, of period 0, never does.
fn next_length(period: u32, jitter: u32, length: u64) -> u64
    requires { length < far }
{
    if period == 0 {
        return FAR;
    }
    let step = period as u64;
    let from = length + jitter as u64 + step;
    from - (from - 1) % step - jitter as u64
}

// The last duration at which frames are counted over less than this length: drift and timing jitter, and the synchronization error,
// each allow one.
fn last_shorter(clock: Clock, length: u64) -> u64
    requires { length ≤ far }
{
    let apart = clock.timing_jitter as u64 + 1;
    let synchronized = 2 * (clock.sync_error as u64) + 1;
    let by_drift = length.saturating_sub(apart) * MILLION / (MILLION + clock.drift as u64);
    by_drift.max(length.saturating_sub(synchronized))
}

// One below the first duration above this one at which some flow begins a further period.
pub(crate) fn before_rise(lent: Lent, duration: u32) -> u64 {
    let length = widened(lent.clock, duration) % FAR;
    let mut nearest = FAR;
    for f in 0..FLOWS {
        nearest = nearest.min(next_length(lent.periods[f], lent.jitters[f], length));
    }
    last_shorter(lent.clock, nearest)
}
