// The loads for C: the planner by its columns, each at a pointer, and what holds no plan. C names two loads; both are one, strict or not.
ghost use Rattle.std.specs.Prelude.{◌≡◌};
ghost use Rattle.cqf.specs.Plan.{no_plan};
ghost use Rattle.plan_reading.specs.Reading.{loose, strict};
ghost use Rattle.loading.specs.Lent.{lent, lent_plan, none_lent};
ghost use Rattle.capi.specs.Loads.{LoadsNumbers};

use crate::AnswerNumbers;
use tables::{FLOWS, PORTS, STRIDE, columns};

// Every number is 0: no plan is held.
#[unsafe(no_mangle)]
pub extern "C" fn cp_clear_columns(
    form: &mut u32,
    guard: &mut u32,
    top: &mut u32,
    drift: &mut u32,
    timing_jitter: &mut u32,
    sync_error: &mut u32,
    rates: &mut columns::Rates,
    blockings: &mut columns::Blockings,
    extras: &mut columns::Extras,
    periods: &mut columns::Periods,
    counts: &mut columns::Counts,
    lengths: &mut columns::Lengths,
    jitters: &mut columns::Jitters,
    hops: &mut columns::Hops,
    routes: &mut columns::Routes,
)
    ensures each { (lent form.new guard.new top.new drift.new
        timing_jitter.new sync_error.new rates.new blockings.new
        extras.new periods.new counts.new lengths.new
        jitters.new hops.new routes.new)
        ≡ none_lent }
    ensures plan { lent_plan
        (lent form.new guard.new top.new drift.new
        timing_jitter.new sync_error.new rates.new blockings.new
        extras.new periods.new counts.new lengths.new
        jitters.new hops.new routes.new)
        ≡ no_plan }
{
    *form = 0;
    *guard = 0;
    *top = 0;
    *drift = 0;
    *timing_jitter = 0;
    *sync_error = 0;
    *rates = [0; PORTS];
    *blockings = [0; PORTS];
    *extras = [0; PORTS];
    *periods = [0; FLOWS];
    *counts = [0; FLOWS];
    *lengths = [0; FLOWS];
    *jitters = [0; FLOWS];
    *hops = [0; FLOWS];
    *routes = [0; FLOWS * STRIDE];
}

// A refused load leaves every number as it came.
#[unsafe(no_mangle)]
pub extern "C" fn cp_load_columns(
    form: &mut u32,
    guard: &mut u32,
    top: &mut u32,
    drift: &mut u32,
    timing_jitter: &mut u32,
    sync_error: &mut u32,
    rates: &mut columns::Rates,
    blockings: &mut columns::Blockings,
    extras: &mut columns::Extras,
    periods: &mut columns::Periods,
    counts: &mut columns::Counts,
    lengths: &mut columns::Lengths,
    jitters: &mut columns::Jitters,
    hops: &mut columns::Hops,
    routes: &mut columns::Routes,
    plan: &[u8],
) -> AnswerNumbers
    ensures { LoadsNumbers loose
        (lent form.old guard.old top.old drift.old
        timing_jitter.old sync_error.old rates.old blockings.old
        extras.old periods.old counts.old lengths.old
        jitters.old hops.old routes.old)
        plan.now
        (lent form.new guard.new top.new drift.new
        timing_jitter.new sync_error.new rates.new blockings.new
        extras.new periods.new counts.new lengths.new
        jitters.new hops.new routes.new)
        result }
{
    AnswerNumbers::from(loading::load_columns(
        false,
        form,
        guard,
        top,
        drift,
        timing_jitter,
        sync_error,
        rates,
        blockings,
        extras,
        periods,
        counts,
        lengths,
        jitters,
        hops,
        routes,
        plan,
    ))
}

#[unsafe(no_mangle)]
pub extern "C" fn cp_load_strict_columns(
    form: &mut u32,
    guard: &mut u32,
    top: &mut u32,
    drift: &mut u32,
    timing_jitter: &mut u32,
    sync_error: &mut u32,
    rates: &mut columns::Rates,
    blockings: &mut columns::Blockings,
    extras: &mut columns::Extras,
    periods: &mut columns::Periods,
    counts: &mut columns::Counts,
    lengths: &mut columns::Lengths,
    jitters: &mut columns::Jitters,
    hops: &mut columns::Hops,
    routes: &mut columns::Routes,
    plan: &[u8],
) -> AnswerNumbers
    ensures { LoadsNumbers strict
        (lent form.old guard.old top.old drift.old
        timing_jitter.old sync_error.old rates.old blockings.old
        extras.old periods.old counts.old lengths.old
        jitters.old hops.old routes.old)
        plan.now
        (lent form.new guard.new top.new drift.new
        timing_jitter.new sync_error.new rates.new blockings.new
        extras.new periods.new counts.new lengths.new
        jitters.new hops.new routes.new)
        result }
{
    let answer = loading::load_columns(
        true,
        form,
        guard,
        top,
        drift,
        timing_jitter,
        sync_error,
        rates,
        blockings,
        extras,
        periods,
        counts,
        lengths,
        jitters,
        hops,
        routes,
        plan,
    );
    AnswerNumbers::from(answer)
}
