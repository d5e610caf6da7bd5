// The searches for C: the planner by its columns, each at a pointer, and a lent scratch.
ghost use Rattle.std.specs.Prelude.{◌≡◌};
ghost use Rattle.loading.specs.Lent.{lent, lent_plan};
ghost use Rattle.questions.specs.Outcome.{least_answer, least_leaves, margin_safe_answer, margin_safe_leaves};
ghost use Rattle.capi.specs.Numbers.{search_numbers};

use crate::AnswerNumbers;
use crate::in_c::{least_in_c, margin_safe_in_c};
use crate::lends::{clock_at, lent_at};
use column_calls::{least_columns, margin_safe_columns};
use tables::columns;

#[unsafe(no_mangle)]
pub extern "C" fn cp_least_columns(
    form: &u32,
    guard: &u32,
    top: &u32,
    drift: &u32,
    timing_jitter: &u32,
    sync_error: &u32,
    rates: &columns::Rates,
    blockings: &columns::Blockings,
    extras: &columns::Extras,
    periods: &columns::Periods,
    counts: &columns::Counts,
    lengths: &columns::Lengths,
    jitters: &columns::Jitters,
    hops: &columns::Hops,
    routes: &columns::Routes,
    scratch: &mut [u64],
) -> AnswerNumbers
    ensures { (result ≡ search_numbers (least_answer
        (lent_plan
        (lent form.now guard.now top.now drift.now
        timing_jitter.now sync_error.now rates.now blockings.now
        extras.now periods.now counts.now lengths.now
        jitters.now hops.now routes.now))
        scratch.old))
        × (scratch.new ≡ least_leaves
        (lent_plan
        (lent form.now guard.now top.now drift.now
        timing_jitter.now sync_error.now rates.now blockings.now
        extras.now periods.now counts.now lengths.now
        jitters.now hops.now routes.now))
        scratch.old) }
{
    let clock = clock_at(drift, timing_jitter, sync_error);
    let lent = lent_at(
        *guard, *top, clock, rates, blockings, extras, periods, counts, lengths, jitters, hops,
        routes,
    );
    least_in_c(least_columns(*form, lent, scratch))
}

#[unsafe(no_mangle)]
pub extern "C" fn cp_margin_safe_columns(
    form: &u32,
    guard: &u32,
    top: &u32,
    drift: &u32,
    timing_jitter: &u32,
    sync_error: &u32,
    rates: &columns::Rates,
    blockings: &columns::Blockings,
    extras: &columns::Extras,
    periods: &columns::Periods,
    counts: &columns::Counts,
    lengths: &columns::Lengths,
    jitters: &columns::Jitters,
    hops: &columns::Hops,
    routes: &columns::Routes,
    scratch: &mut [u64],
) -> AnswerNumbers
    ensures { (result ≡ search_numbers (margin_safe_answer
        (lent_plan
        (lent form.now guard.now top.now drift.now
        timing_jitter.now sync_error.now rates.now blockings.now
        extras.now periods.now counts.now lengths.now
        jitters.now hops.now routes.now))
        scratch.old))
        × (scratch.new ≡ margin_safe_leaves
        (lent_plan
        (lent form.now guard.now top.now drift.now
        timing_jitter.now sync_error.now rates.now blockings.now
        extras.now periods.now counts.now lengths.now
        jitters.now hops.now routes.now))
        scratch.old) }
{
    let clock = clock_at(drift, timing_jitter, sync_error);
    let lent = lent_at(
        *guard, *top, clock, rates, blockings, extras, periods, counts, lengths, jitters, hops,
        routes,
    );
    margin_safe_in_c(margin_safe_columns(*form, lent, scratch))
}
