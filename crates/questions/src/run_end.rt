// The end of a run of admissible durations.
ghost use Rattle.std.specs.Prelude.{◌≡◌, true, suc, ◌≤◌, ◌<◌, length};
ghost use Rattle.cqf.specs.Limits.{port_slots};
ghost use Rattle.cqf.specs.Condition.{admissible};
ghost use Rattle.span_lists.specs.Span.{last_from};
ghost use Rattle.tables.specs.Lent.{plan_lent};

use super::downward::refused_below;
use super::rise::before_rise;
use tables::{Held, Lent};

// A likely end of the run from start that is known up to known. Before a refused duration was met: as far again, and on to the next
// rise of the demand. After that: the rise that follows the middle, or the next one.
fn guess(lent: Lent, start: u64, known: u64, over: u64) -> u64
    requires { (start ≤ known) × (suc known < over) × (over ≤ suc lent.top) }
{
    let limit = lent.top as u64;
    if limit < over {
        let further = known + (known - start);
        if limit <= further {
            return limit;
        }
        return limit.min(before_rise(lent, further as u32));
    }
    let near = before_rise(lent, ((known + over) / 2) as u32);
    if near < over {
        return near;
    }
    before_rise(lent, (known + 1) as u32)
}

// A duration between known and over.
fn probe(lent: Lent, start: u64, known: u64, over: u64) -> u64
    requires { (start ≤ known) × (suc known < over) × (over ≤ suc lent.top) }
    ensures { (known < result) × (result < over) }
{
    let likely = guess(lent, start, known, over);
    if known < likely && likely < over {
        return likely;
    }
    known + 1
}

// The last duration of the run from an admissible one on. Every duration from start to known is admissible; over is refused, or one
// above top. A probe between them moves one or the other.
pub(crate) fn last_from(held: Held, start: u64, out: &mut [u64]) -> u64
    requires range { (1 ≤ start) × (start ≤ held.lent.top) × (length out.old ≡ port_slots) }
    requires start_value { admissible (plan_lent held.lent) start ≡ true }
    ensures { result ≡ last_from (plan_lent held.entry.lent) start }
{
    let top = held.lent.top;
    let mut known = start;
    let mut over = top as u64 + 1;
    while known + 1 < over {
        let at = probe(held.lent, start, known, over);
        let below = refused_below(held, known + 1, at, out);
        if below <= known {
            known = at;
        } else {
            over = below;
        }
    }
    known
}
