// The bad emission of a refused duration for C: the planner by its columns, each at a pointer.
ghost use Rattle.std.specs.Prelude.{◌≡◌};
ghost use Rattle.loading.specs.Lent.{lent, lent_plan};
ghost use Rattle.emissions.specs.Burst.{burst_answer};
ghost use Rattle.emissions.specs.Unsent.{unsent_answer};
ghost use Rattle.capi.specs.Emission.{burst_numbers, unsent_numbers};

use crate::lends::{clock_at, lent_at};
use crate::{BurstAnswerNumbers, UnsentAnswerNumbers};
use column_calls::formed;
use emissions::{burst_tables, unsent_tables};
use tables::columns;

// A flow's part in the bad emission of a port, and the instant of one of its frames.
#[unsafe(no_mangle)]
pub extern "C" fn cp_burst_columns(
    form: &u32,
    guard: &u32,
    top: &u32,
    drift: &u32,
    timing_jitter: &u32,
    sync_error: &u32,
    rates: &columns::Rates,
    blockings: &columns::Blockings,
    extras: &columns::Extras,
    periods: &columns::Periods,
    counts: &columns::Counts,
    lengths: &columns::Lengths,
    jitters: &columns::Jitters,
    hops: &columns::Hops,
    routes: &columns::Routes,
    duration: u64,
    port: u64,
    flow: u64,
    frame: u64,
) -> BurstAnswerNumbers
    ensures { result ≡ burst_numbers (burst_answer
        (lent_plan
        (lent form.now guard.now top.now drift.now
        timing_jitter.now sync_error.now rates.now blockings.now
        extras.now periods.now counts.now lengths.now
        jitters.now hops.now routes.now))
        duration port flow frame) }
{
    let clock = clock_at(drift, timing_jitter, sync_error);
    let lent = lent_at(
        *guard, *top, clock, rates, blockings, extras, periods, counts, lengths, jitters, hops,
        routes,
    );
    BurstAnswerNumbers::from(burst_tables(formed(*form, lent), duration, port, flow, frame))
}

// Of the bad emission of the lowest port that fails, the first cycle in which a frame is left unsent, and the lowest port there.
#[unsafe(no_mangle)]
pub extern "C" fn cp_unsent_columns(
    form: &u32,
    guard: &u32,
    top: &u32,
    drift: &u32,
    timing_jitter: &u32,
    sync_error: &u32,
    rates: &columns::Rates,
    blockings: &columns::Blockings,
    extras: &columns::Extras,
    periods: &columns::Periods,
    counts: &columns::Counts,
    lengths: &columns::Lengths,
    jitters: &columns::Jitters,
    hops: &columns::Hops,
    routes: &columns::Routes,
    duration: u64,
) -> UnsentAnswerNumbers
    ensures { result ≡ unsent_numbers (unsent_answer
        (lent_plan
        (lent form.now guard.now top.now drift.now
        timing_jitter.now sync_error.now rates.now blockings.now
        extras.now periods.now counts.now lengths.now
        jitters.now hops.now routes.now))
        duration) }
{
    let clock = clock_at(drift, timing_jitter, sync_error);
    let lent = lent_at(
        *guard, *top, clock, rates, blockings, extras, periods, counts, lengths, jitters, hops,
        routes,
    );
    UnsentAnswerNumbers::from(unsent_tables(formed(*form, lent), duration))
}
