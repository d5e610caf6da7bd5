// Calls for C that write fields: the planner by its columns, each at a pointer, and a lent buffer.
ghost use Rattle.std.specs.Prelude.{◌≡◌};
ghost use Rattle.cqf.specs.Form.{form_from};
ghost use Rattle.loading.specs.Lent.{lent, lent_plan};
ghost use Rattle.saving.specs.Save.{save_answer, save_leaves};
ghost use Rattle.gate_writing.specs.Gates.{gates_answer, gates_leaves};
ghost use Rattle.capi.specs.Meaning.{GatesNumbersMean};
ghost use Rattle.capi.specs.Numbers.{written_numbers};

use crate::AnswerNumbers;
use crate::lends::{clock_at, lent_at};
use column_calls::{gates_columns, save_columns};
use tables::columns;

#[unsafe(no_mangle)]
pub extern "C" fn cp_save_columns(
    form: &u32,
    guard: &u32,
    top: &u32,
    drift: &u32,
    timing_jitter: &u32,
    sync_error: &u32,
    rates: &columns::Rates,
    blockings: &columns::Blockings,
    extras: &columns::Extras,
    periods: &columns::Periods,
    counts: &columns::Counts,
    lengths: &columns::Lengths,
    jitters: &columns::Jitters,
    hops: &columns::Hops,
    routes: &columns::Routes,
    buffer: &mut [u8],
) -> AnswerNumbers
    ensures { (result ≡ written_numbers (save_answer (form_from form.now)
        (lent_plan
        (lent form.now guard.now top.now drift.now
        timing_jitter.now sync_error.now rates.now blockings.now
        extras.now periods.now counts.now lengths.now
        jitters.now hops.now routes.now))
        buffer.old))
        × (buffer.new ≡ save_leaves (form_from form.now)
        (lent_plan
        (lent form.now guard.now top.now drift.now
        timing_jitter.now sync_error.now rates.now blockings.now
        extras.now periods.now counts.now lengths.now
        jitters.now hops.now routes.now))
        buffer.old) }
{
    let clock = clock_at(drift, timing_jitter, sync_error);
    let lent = lent_at(
        *guard, *top, clock, rates, blockings, extras, periods, counts, lengths, jitters, hops,
        routes,
    );
    AnswerNumbers::from(save_columns(*form, lent, buffer))
}

// 0 means that the bytes written play two cycles of the plan held.
#[unsafe(no_mangle)]
pub extern "C" fn cp_gates_columns(
    form: &u32,
    guard: &u32,
    top: &u32,
    drift: &u32,
    timing_jitter: &u32,
    sync_error: &u32,
    rates: &columns::Rates,
    blockings: &columns::Blockings,
    extras: &columns::Extras,
    periods: &columns::Periods,
    counts: &columns::Counts,
    lengths: &columns::Lengths,
    jitters: &columns::Jitters,
    hops: &columns::Hops,
    routes: &columns::Routes,
    duration: u64,
    even: u64,
    odd: u64,
    buffer: &mut [u8],
) -> AnswerNumbers
    ensures answers { (result ≡ written_numbers (gates_answer
        (lent_plan
        (lent form.now guard.now top.now drift.now
        timing_jitter.now sync_error.now rates.now blockings.now
        extras.now periods.now counts.now lengths.now
        jitters.now hops.now routes.now))
        duration even odd buffer.old))
        × (buffer.new ≡ gates_leaves
        (lent_plan
        (lent form.now guard.now top.now drift.now
        timing_jitter.now sync_error.now rates.now blockings.now
        extras.now periods.now counts.now lengths.now
        jitters.now hops.now routes.now))
        duration even odd buffer.old) }
    ensures means { GatesNumbersMean
        (lent_plan
        (lent form.now guard.now top.now drift.now
        timing_jitter.now sync_error.now rates.now blockings.now
        extras.now periods.now counts.now lengths.now
        jitters.now hops.now routes.now))
        duration even odd buffer.old buffer.new result }
{
    let clock = clock_at(drift, timing_jitter, sync_error);
    let lent = lent_at(
        *guard, *top, clock, rates, blockings, extras, periods, counts, lengths, jitters, hops,
        routes,
    );
    AnswerNumbers::from(gates_columns(*form, lent, duration, even, odd, buffer))
}
