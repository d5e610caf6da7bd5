// The held plan as text for C: the planner by its columns, each at a pointer, and a lent buffer.
ghost use Rattle.std.specs.Prelude.{◌≡◌};
ghost use Rattle.cqf.specs.Form.{form_from};
ghost use Rattle.loading.specs.Lent.{lent, lent_plan};
ghost use Rattle.text_writing.specs.Text.{text_answer, text_leaves};
ghost use Rattle.capi.specs.Numbers.{written_numbers};

use crate::AnswerNumbers;
use crate::lends::{clock_at, lent_at};
use tables::columns;
use text_writing::write_columns;

#[unsafe(no_mangle)]
pub extern "C" fn cp_text_columns(
    form: &u32,
    guard: &u32,
    top: &u32,
    drift: &u32,
    timing_jitter: &u32,
    sync_error: &u32,
    rates: &columns::Rates,
    blockings: &columns::Blockings,
    extras: &columns::Extras,
    periods: &columns::Periods,
    counts: &columns::Counts,
    lengths: &columns::Lengths,
    jitters: &columns::Jitters,
    hops: &columns::Hops,
    routes: &columns::Routes,
    buffer: &mut [u8],
) -> AnswerNumbers
    ensures { (result ≡ written_numbers (text_answer (form_from form.now)
        (lent_plan
        (lent form.now guard.now top.now drift.now
        timing_jitter.now sync_error.now rates.now blockings.now
        extras.now periods.now counts.now lengths.now
        jitters.now hops.now routes.now))
        buffer.old))
        × (buffer.new ≡ text_leaves (form_from form.now)
        (lent_plan
        (lent form.now guard.now top.now drift.now
        timing_jitter.now sync_error.now rates.now blockings.now
        extras.now periods.now counts.now lengths.now
        jitters.now hops.now routes.now))
        buffer.old) }
{
    let clock = clock_at(drift, timing_jitter, sync_error);
    let lent = lent_at(
        *guard, *top, clock, rates, blockings, extras, periods, counts, lengths, jitters, hops,
        routes,
    );
    AnswerNumbers::from(write_columns(*form, lent, buffer))
}
