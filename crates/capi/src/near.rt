// The nearest admissible durations for C: the planner by its columns, each at a pointer.
ghost use Rattle.std.specs.Prelude.{◌≡◌};
ghost use Rattle.loading.specs.Lent.{lent, lent_plan};
ghost use Rattle.questions.specs.Nearest.{nearest_answer};
ghost use Rattle.capi.specs.Meaning.{NearestNumbersMean};
ghost use Rattle.capi.specs.Numbers.{nearest_numbers};

use crate::AnswerNumbers;
use crate::lends::{clock_at, lent_at};
use column_calls::nearest_columns;
use tables::columns;

// The numbers mean what the answer of `planner::nearest` means.
#[unsafe(no_mangle)]
pub extern "C" fn cp_nearest_columns(
    form: &u32,
    guard: &u32,
    top: &u32,
    drift: &u32,
    timing_jitter: &u32,
    sync_error: &u32,
    rates: &columns::Rates,
    blockings: &columns::Blockings,
    extras: &columns::Extras,
    periods: &columns::Periods,
    counts: &columns::Counts,
    lengths: &columns::Lengths,
    jitters: &columns::Jitters,
    hops: &columns::Hops,
    routes: &columns::Routes,
    duration: u64,
) -> AnswerNumbers
    ensures answers { result ≡ nearest_numbers (nearest_answer
        (lent_plan
        (lent form.now guard.now top.now drift.now
        timing_jitter.now sync_error.now rates.now blockings.now
        extras.now periods.now counts.now lengths.now
        jitters.now hops.now routes.now))
        duration) }
    ensures means { NearestNumbersMean
        (lent_plan
        (lent form.now guard.now top.now drift.now
        timing_jitter.now sync_error.now rates.now blockings.now
        extras.now periods.now counts.now lengths.now
        jitters.now hops.now routes.now))
        duration result }
{
    let clock = clock_at(drift, timing_jitter, sync_error);
    let lent = lent_at(
        *guard, *top, clock, rates, blockings, extras, periods, counts, lengths, jitters, hops,
        routes,
    );
    AnswerNumbers::from(nearest_columns(*form, lent, duration))
}
