// Spans for C, one or a list of them, and a list of slacks: the planner by its columns, each at a pointer.
ghost use Rattle.std.specs.Prelude.{◌≡◌, length};
ghost use Rattle.loading.specs.Lent.{lent, lent_plan};
ghost use Rattle.questions.specs.Reprice.{reprice_answer, reprice_leaves};
ghost use Rattle.questions.specs.Spans.{span_answer, spans_answer, spans_leaves};
ghost use Rattle.capi.specs.Meaning.{SpanNumbersMean, SpansNumbersMean};
ghost use Rattle.capi.specs.Numbers.{check_numbers, search_numbers, span_numbers};

use crate::AnswerNumbers;
use crate::lends::{clock_at, lent_at};
use column_calls::{reprice_columns, span_columns, spans_columns};
use questions::SpanRecord;
use tables::columns;

#[unsafe(no_mangle)]
pub extern "C" fn cp_reprice_columns(
    form: &u32,
    guard: &u32,
    top: &u32,
    drift: &u32,
    timing_jitter: &u32,
    sync_error: &u32,
    rates: &columns::Rates,
    blockings: &columns::Blockings,
    extras: &columns::Extras,
    periods: &columns::Periods,
    counts: &columns::Counts,
    lengths: &columns::Lengths,
    jitters: &columns::Jitters,
    hops: &columns::Hops,
    routes: &columns::Routes,
    duration: u64,
    flow: u64,
    length: u64,
    out: &mut [i64],
) -> AnswerNumbers
    ensures { (result ≡ check_numbers (reprice_answer
        (lent_plan
        (lent form.now guard.now top.now drift.now
        timing_jitter.now sync_error.now rates.now blockings.now
        extras.now periods.now counts.now lengths.now
        jitters.now hops.now routes.now))
        duration flow length out.old))
        × (out.new ≡ reprice_leaves
        (lent_plan
        (lent form.now guard.now top.now drift.now
        timing_jitter.now sync_error.now rates.now blockings.now
        extras.now periods.now counts.now lengths.now
        jitters.now hops.now routes.now))
        duration flow length out.old) }
{
    let clock = clock_at(drift, timing_jitter, sync_error);
    let lent = lent_at(
        *guard, *top, clock, rates, blockings, extras, periods, counts, lengths, jitters, hops,
        routes,
    );
    AnswerNumbers::from(reprice_columns(*form, lent, duration, flow, length, out))
}

// The numbers mean what the answer of `planner::span` means.
#[unsafe(no_mangle)]
pub extern "C" fn cp_span_columns(
    form: &u32,
    guard: &u32,
    top: &u32,
    drift: &u32,
    timing_jitter: &u32,
    sync_error: &u32,
    rates: &columns::Rates,
    blockings: &columns::Blockings,
    extras: &columns::Extras,
    periods: &columns::Periods,
    counts: &columns::Counts,
    lengths: &columns::Lengths,
    jitters: &columns::Jitters,
    hops: &columns::Hops,
    routes: &columns::Routes,
    duration: u64,
) -> AnswerNumbers
    ensures answers { result ≡ span_numbers (span_answer
        (lent_plan
        (lent form.now guard.now top.now drift.now
        timing_jitter.now sync_error.now rates.now blockings.now
        extras.now periods.now counts.now lengths.now
        jitters.now hops.now routes.now))
        duration) }
    ensures means { SpanNumbersMean
        (lent_plan
        (lent form.now guard.now top.now drift.now
        timing_jitter.now sync_error.now rates.now blockings.now
        extras.now periods.now counts.now lengths.now
        jitters.now hops.now routes.now))
        duration result }
{
    let clock = clock_at(drift, timing_jitter, sync_error);
    let lent = lent_at(
        *guard, *top, clock, rates, blockings, extras, periods, counts, lengths, jitters, hops,
        routes,
    );
    AnswerNumbers::from(span_columns(*form, lent, duration))
}

// The numbers mean what the answer of `planner::spans` means.
#[unsafe(no_mangle)]
pub extern "C" fn cp_spans_columns(
    form: &u32,
    guard: &u32,
    top: &u32,
    drift: &u32,
    timing_jitter: &u32,
    sync_error: &u32,
    rates: &columns::Rates,
    blockings: &columns::Blockings,
    extras: &columns::Extras,
    periods: &columns::Periods,
    counts: &columns::Counts,
    lengths: &columns::Lengths,
    jitters: &columns::Jitters,
    hops: &columns::Hops,
    routes: &columns::Routes,
    list: &mut [SpanRecord],
) -> AnswerNumbers
    ensures answers { (result ≡ search_numbers (spans_answer
        (lent_plan
        (lent form.now guard.now top.now drift.now
        timing_jitter.now sync_error.now rates.now blockings.now
        extras.now periods.now counts.now lengths.now
        jitters.now hops.now routes.now))
        (length list.old)))
        × (list.new ≡ spans_leaves
        (lent_plan
        (lent form.now guard.now top.now drift.now
        timing_jitter.now sync_error.now rates.now blockings.now
        extras.now periods.now counts.now lengths.now
        jitters.now hops.now routes.now))
        list.old) }
    ensures means { SpansNumbersMean
        (lent_plan
        (lent form.now guard.now top.now drift.now
        timing_jitter.now sync_error.now rates.now blockings.now
        extras.now periods.now counts.now lengths.now
        jitters.now hops.now routes.now))
        list.old list.new result }
{
    let clock = clock_at(drift, timing_jitter, sync_error);
    let lent = lent_at(
        *guard, *top, clock, rates, blockings, extras, periods, counts, lengths, jitters, hops,
        routes,
    );
    AnswerNumbers::from(spans_columns(*form, lent, list))
}
