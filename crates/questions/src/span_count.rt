// How many spans there are, one after the other.
ghost use Rattle.std.specs.Prelude.{◌≡◌, length};
ghost use Rattle.span_lists.specs.Span.{spans};
ghost use Rattle.tables.specs.Lent.{plan_lent};

use super::one_span::span_from;
use tables::Held;

pub(crate) fn count_spans(held: Held) -> u64
    ensures { result ≡ length (spans (plan_lent held.entry.lent)) }
{
    let mut count: u64 = 0;
    let mut from: u64 = 1;
    while let Some(span) = span_from(held, from) {
        from = span.last + 1;
        count += 1;
    }
    count
}
