// The tables at the pointers of a call: C hands the columns one by one, and the exports lend them as one value.
ghost use Rattle.std.specs.Prelude.{◌≡◌, ℕ};
ghost use Rattle.loading.specs.Lent.{lent, lent_plan};
ghost use Rattle.column_calls.specs.Formed.{plan_formed};

use numbers::clock::Clock;
use tables::{Lent, columns};

pub(crate) fn clock_at(drift: &u32, timing_jitter: &u32, sync_error: &u32) -> Clock
    ensures { result ≡ (record { drift = drift.now; timing_jitter = timing_jitter.now; sync_error = sync_error.now }) }
{
    Clock {
        drift: *drift,
        timing_jitter: *timing_jitter,
        sync_error: *sync_error,
    }
}

pub(crate) fn lent_at<'a>(
    guard: u32,
    top: u32,
    clock: Clock,
    rates: &'a columns::Rates,
    blockings: &'a columns::Blockings,
    extras: &'a columns::Extras,
    periods: &'a columns::Periods,
    counts: &'a columns::Counts,
    lengths: &'a columns::Lengths,
    jitters: &'a columns::Jitters,
    hops: &'a columns::Hops,
    routes: &'a columns::Routes,
) -> Lent<'a>
    ensures { (form : ℕ) → plan_formed form result ≡ lent_plan
        (lent form guard top clock.drift
        clock.timing_jitter clock.sync_error rates.entry.now blockings.entry.now
        extras.entry.now periods.entry.now counts.entry.now lengths.entry.now
        jitters.entry.now hops.entry.now routes.entry.now) }
{
    Lent {
        guard,
        top,
        clock,
        rates,
        blockings,
        extras,
        periods,
        counts,
        lengths,
        jitters,
        hops,
        routes,
    }
}
