// The first span that ends at a duration or later.
ghost use Rattle.std.specs.Prelude.{◌≡◌, true, ◌≤◌, length};
ghost use Rattle.cqf.specs.Limits.{port_slots};
ghost use Rattle.cqf.specs.Condition.{admissible};
ghost use Rattle.tables.specs.Lent.{plan_lent};
ghost use Rattle.questions.specs.Run.{FirstOf};
ghost use Rattle.questions.specs.Spans.{IsNext, span_answer};
ghost use Rattle.questions.specs.SpanAnswer.{span_answer_of};

use super::downward::refused_below;
use super::run_end::last_from;
use super::upward::first_from;
use numbers::limits::between;
use tables::{Held, Lent, PORTS, hold};

// A run of admissible durations from 1 to top that can grow at neither end: its first and its last.
#[repr(C)]
#[derive(Clone, Copy)]
pub struct SpanRecord {
    pub first: u64,
    pub last: u64,
}

#[derive(Clone, Copy)]
pub enum SpanRefusal {
    NoPlan,
    BadDuration,
    NoSpan,
}

// The first duration of the run that holds the least admissible one from a duration on: the run may begin before that duration.
fn first_of(held: Held, duration: u64, start: u64, out: &mut [u64]) -> u64
    requires range { (1 ≤ duration) × (duration ≤ start) × (start ≤ held.lent.top) × (length out.old ≡ port_slots) }
    requires start_value { admissible (plan_lent held.lent) start ≡ true }
    ensures { FirstOf (plan_lent held.entry.lent) duration start result }
{
    if duration < start {
        return start;
    }
    1 + refused_below(held, 1, start, out)
}

// The first span that ends at a duration or later.
pub(crate) fn span_from(held: Held, duration: u64) -> Option<SpanRecord>
    requires { 1 ≤ duration }
    ensures { IsNext (plan_lent held.entry.lent) duration result }
{
    let limit = held.lent.top as u64;
    if limit < duration {
        return None;
    }
    let mut out = [0u64; PORTS];
    let start = first_from(held, duration, &mut out);
    if limit < start {
        return None;
    }
    let first = first_of(held, duration, start, &mut out);
    let last = last_from(held, start, &mut out);
    Some(SpanRecord { first, last })
}

// The first span that ends at a duration or later.
pub fn span_tables(lent: Lent, duration: u64) -> Result<SpanRecord, SpanRefusal>
    ensures { span_answer_of result ≡ span_answer (plan_lent lent.entry) duration }
{
    let Some(held) = hold(lent) else {
        return Err(SpanRefusal::NoPlan);
    };
    if !between(1, held.lent.top as u64, duration) {
        return Err(SpanRefusal::BadDuration);
    }
    let Some(span) = span_from(held, duration) else {
        return Err(SpanRefusal::NoSpan);
    };
    Ok(span)
}
