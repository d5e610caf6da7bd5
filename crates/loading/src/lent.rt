// The load into lent columns: the plan is read into fresh tables, which are stored once, where it is accepted; a refused load stores nothing.

ghost use Rattle.loading.specs.Answer.{mode_of};
ghost use Rattle.loading.specs.Lent.{lent, LoadsLent};

use crate::Loaded;
use crate::reading::read_tables;
use plan::{Refusal, form_by, form_number};
use tables::{columns, empty};

// A load in either reading, by the form that the bytes tell. The C interface lends each number and column at a pointer of its own.
pub fn load_columns(
    strict: bool,
    form: &mut u32,
    guard: &mut u32,
    top: &mut u32,
    drift: &mut u32,
    timing_jitter: &mut u32,
    sync_error: &mut u32,
    rates: &mut columns::Rates,
    blockings: &mut columns::Blockings,
    extras: &mut columns::Extras,
    periods: &mut columns::Periods,
    counts: &mut columns::Counts,
    lengths: &mut columns::Lengths,
    jitters: &mut columns::Jitters,
    hops: &mut columns::Hops,
    routes: &mut columns::Routes,
    plan: &[u8],
) -> Result<Loaded, Refusal>
    ensures { LoadsLent (mode_of strict)
        (lent form.old guard.old top.old drift.old
        timing_jitter.old sync_error.old rates.old blockings.old
        extras.old periods.old counts.old lengths.old jitters.old
        hops.old routes.old)
        plan.now
        (lent form.new guard.new top.new drift.new
        timing_jitter.new sync_error.new rates.new blockings.new
        extras.new periods.new counts.new lengths.new jitters.new
        hops.new routes.new)
        result }
{
    let told = form_by(plan);
    let mut fresh = empty();
    let answer = read_tables(told, strict, plan, &mut fresh);
    let loaded = answer?;
    *form = form_number(told);
    *guard = fresh.guard;
    *top = fresh.top;
    *drift = fresh.clock.drift;
    *timing_jitter = fresh.clock.timing_jitter;
    *sync_error = fresh.clock.sync_error;
    *rates = fresh.rates;
    *blockings = fresh.blockings;
    *extras = fresh.extras;
    *periods = fresh.periods;
    *counts = fresh.counts;
    *lengths = fresh.lengths;
    *jitters = fresh.jitters;
    *hops = fresh.hops;
    *routes = fresh.routes;
    Ok(loaded)
}
