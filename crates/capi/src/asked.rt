// Questions for C about one duration: the planner by its columns, each at a pointer.
ghost use Rattle.std.specs.Prelude.{◌≡◌};
ghost use Rattle.loading.specs.Lent.{lent, lent_plan};
ghost use Rattle.questions.specs.Outcome.{check_answer, slack_answer};
ghost use Rattle.questions.specs.FixedPoint.{fixed_point_answer};
ghost use Rattle.capi.specs.Meaning.{CheckNumbersMean, StepsNumbersMean};
ghost use Rattle.capi.specs.Numbers.{check_numbers, slack_numbers, steps_numbers};

use crate::lends::{clock_at, lent_at};
use crate::{AnswerNumbers, FixedPointAnswerNumbers, SlackAnswerNumbers};
use column_calls::{check_columns, fixed_point_columns, slack_columns};
use tables::columns;

// 21 and 0 mean what they mean from `planner::check`: demand 3.
#[unsafe(no_mangle)]
pub extern "C" fn cp_check_columns(
    form: &u32,
    guard: &u32,
    top: &u32,
    drift: &u32,
    timing_jitter: &u32,
    sync_error: &u32,
    rates: &columns::Rates,
    blockings: &columns::Blockings,
    extras: &columns::Extras,
    periods: &columns::Periods,
    counts: &columns::Counts,
    lengths: &columns::Lengths,
    jitters: &columns::Jitters,
    hops: &columns::Hops,
    routes: &columns::Routes,
    duration: u64,
) -> AnswerNumbers
    ensures answers { result ≡ check_numbers (check_answer
        (lent_plan
        (lent form.now guard.now top.now drift.now
        timing_jitter.now sync_error.now rates.now blockings.now
        extras.now periods.now counts.now lengths.now
        jitters.now hops.now routes.now))
        duration) }
    ensures means { CheckNumbersMean
        (lent_plan
        (lent form.now guard.now top.now drift.now
        timing_jitter.now sync_error.now rates.now blockings.now
        extras.now periods.now counts.now lengths.now
        jitters.now hops.now routes.now))
        duration result }
{
    let clock = clock_at(drift, timing_jitter, sync_error);
    let lent = lent_at(
        *guard, *top, clock, rates, blockings, extras, periods, counts, lengths, jitters, hops,
        routes,
    );
    AnswerNumbers::from(check_columns(*form, lent, duration))
}

#[unsafe(no_mangle)]
pub extern "C" fn cp_slack_columns(
    form: &u32,
    guard: &u32,
    top: &u32,
    drift: &u32,
    timing_jitter: &u32,
    sync_error: &u32,
    rates: &columns::Rates,
    blockings: &columns::Blockings,
    extras: &columns::Extras,
    periods: &columns::Periods,
    counts: &columns::Counts,
    lengths: &columns::Lengths,
    jitters: &columns::Jitters,
    hops: &columns::Hops,
    routes: &columns::Routes,
    port: u64,
    duration: u64,
) -> SlackAnswerNumbers
    ensures { result ≡ slack_numbers (slack_answer
        (lent_plan
        (lent form.now guard.now top.now drift.now
        timing_jitter.now sync_error.now rates.now blockings.now
        extras.now periods.now counts.now lengths.now
        jitters.now hops.now routes.now))
        port duration) }
{
    let clock = clock_at(drift, timing_jitter, sync_error);
    let lent = lent_at(
        *guard, *top, clock, rates, blockings, extras, periods, counts, lengths, jitters, hops,
        routes,
    );
    SlackAnswerNumbers::from(slack_columns(*form, lent, port, duration))
}

// The numbers mean what the answer of `planner::fixed_point` means.
#[unsafe(no_mangle)]
pub extern "C" fn cp_fixed_point_columns(
    form: &u32,
    guard: &u32,
    top: &u32,
    drift: &u32,
    timing_jitter: &u32,
    sync_error: &u32,
    rates: &columns::Rates,
    blockings: &columns::Blockings,
    extras: &columns::Extras,
    periods: &columns::Periods,
    counts: &columns::Counts,
    lengths: &columns::Lengths,
    jitters: &columns::Jitters,
    hops: &columns::Hops,
    routes: &columns::Routes,
    start: u64,
    steps: u64,
) -> FixedPointAnswerNumbers
    ensures answers { result ≡ steps_numbers (fixed_point_answer
        (lent_plan
        (lent form.now guard.now top.now drift.now
        timing_jitter.now sync_error.now rates.now blockings.now
        extras.now periods.now counts.now lengths.now
        jitters.now hops.now routes.now))
        start steps) }
    ensures means { StepsNumbersMean
        (lent_plan
        (lent form.now guard.now top.now drift.now
        timing_jitter.now sync_error.now rates.now blockings.now
        extras.now periods.now counts.now lengths.now
        jitters.now hops.now routes.now))
        start steps result }
{
    let clock = clock_at(drift, timing_jitter, sync_error);
    let lent = lent_at(
        *guard, *top, clock, rates, blockings, extras, periods, counts, lengths, jitters, hops,
        routes,
    );
    FixedPointAnswerNumbers::from(fixed_point_columns(*form, lent, start, steps))
}
