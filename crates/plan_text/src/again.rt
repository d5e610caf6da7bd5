// Whether a line says a thing again, or a port twice.
ghost use Rattle.std.specs.Prelude.{◌≤◌, ◌≡◌, not, length, get_or};
ghost use Rattle.cqf.specs.Bounded.{distinct};
ghost use Rattle.cqf.specs.Limits.{max_hops};
ghost use Rattle.plan_text.specs.Kinds.{item_of};
ghost use Rattle.plan_text.specs.Reading.{numbers_by};
ghost use Rattle.plan_text.specs.Text.{own, is_again};
ghost use Rattle.plan_text.specs.Drafting.{draft_of, AgainAsked};

use crate::draft::Draft;
use crate::grammar::{Item, Kind};
use crate::kinds::is_other;
use crate::store::slot_of;

// Whether a number stands twice in a list.
pub(crate) fn repeats(list: &[u64]) -> bool
    ensures { result ≡ not (distinct list.now) }
{
    for (i, n) in list.iter().enumerate() {
        if list[i + 1..].contains(n) {
            return true;
        }
    }
    false
}

// The name of a kind in a refusal.
pub(crate) fn item_of(kind: Kind) -> Item
    ensures { result ≡ item_of kind }
{
    match kind {
        Kind::Guard => Item::Guard,
        Kind::Top => Item::Top,
        Kind::Port => Item::Port,
        Kind::Flow => Item::Flow,
        Kind::Clocks => Item::Drift,
        Kind::Format => Item::Format,
        Kind::Other => Item::First,
    }
}

// The first number of a line.
pub(crate) fn first_number(kind: Kind, numbers: &[u64]) -> u64
    requires { max_hops ≤ length numbers.now }
    ensures { result ≡ own (numbers_by kind numbers.now) }
{
    if is_other(kind) { 0 } else { numbers[0] }
}

// Whether a line of this kind says a thing again.
pub(crate) fn is_again(kind: Kind, numbers: &[u64], draft: &Draft) -> bool
    requires { AgainAsked kind numbers.now }
    ensures { result ≡ is_again kind (get_or numbers.now 0 0) (draft_of draft.now) }
{
    match kind {
        Kind::Guard => draft.guard.is_some(),
        Kind::Top => draft.top.is_some(),
        Kind::Port => 0 < draft.tables.rates[slot_of(numbers)],
        Kind::Flow => 0 < draft.tables.periods[slot_of(numbers)],
        Kind::Clocks => draft.clock.is_some(),
        Kind::Format => draft.newer,
        Kind::Other => false,
    }
}
