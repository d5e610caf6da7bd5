// The frames that a flow brings, and their instants in the bad emission.
ghost use Rattle.std.specs.Prelude.{◌≡◌, ◌+◌, ◌-◌, ◌*◌, ◌/◌, ◌≤◌, ◌<◌};
ghost use Rattle.cqf.specs.Limits.{max_top, max_hops, min_period, max_period, max_count, max_jitter};
ghost use Rattle.cqf.specs.Overflow.{most_widened, most_begun};
ghost use Rattle.cqf.specs.Condition.{begun_by, frames_by};

// The periods that begin in a length of time or within the jitter before it: the quotient rounded up.
fn periods_begun(widened: u32, jitter: u32, period: u32) -> u32
    requires { (min_period ≤ period) × (period ≤ max_period) × (jitter ≤ max_jitter) × (widened ≤ most_widened) }
    ensures { result ≡ begun_by widened jitter period }
{
    (widened + jitter + (period - 1)) / period
}

// The frames that a flow brings in it.
// That of `questions` takes any numbers, in 64 bits; this one leans on ranges that its callers know, as `held_frames` does there.
pub(crate) fn flow_frames(period: u32, count: u16, jitter: u32, widened: u32) -> u64
    requires { (min_period ≤ period)
        × (period ≤ max_period)
        × (count ≤ max_count)
        × (jitter ≤ max_jitter)
        × (widened ≤ most_widened) }
    ensures { (result ≡ frames_by count widened jitter period) × (result ≤ max_count * most_begun) }
{
    let begun = periods_begun(widened, jitter, period);
    u64::from(count) * u64::from(begun)
}

// The instant of frame k of a burst in a cycle: count frames in each period, from a jitter before the cycle's start on.
pub(crate) fn instant_of(
    cycle: u64,
    duration: u64,
    count: u16,
    period: u32,
    jitter: u32,
    k: u64,
) -> u64
    requires { (cycle ≤ max_hops)
        × (duration ≤ max_top)
        × (0 < count)
        × (period ≤ max_period)
        × (k ≤ max_count * most_begun) }
    ensures { result ≡ cycle * duration + (k / count * period - jitter) }
{
    let nominal = k / (count as u64) * (period as u64);
    cycle * duration + nominal.saturating_sub(jitter as u64)
}
