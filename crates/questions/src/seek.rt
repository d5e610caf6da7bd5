// What a search looks for, and how it is found.
ghost use Rattle.std.specs.Prelude.{◌≡◌, length};
ghost use Rattle.cqf.specs.Limits.{port_slots};
ghost use Rattle.tables.specs.Lent.{plan_lent};
ghost use Rattle.questions.specs.Search.{Found, wanted};

use super::ascend::ascend;
use super::descend::descend;
use tables::Held;

// What a search looks for. An enum with a match for each kind of scratch: a closure would bring the contract of a whole search to each caller.
#[derive(Clone, Copy)]
pub enum Goal {
    Least,
    MarginSafe,
}

// The duration that it looks for, or one above top where there is none, as the definitions number it.
pub(crate) fn seek(goal: Goal, held: Held, out: &mut [u64]) -> u64
    requires { length out.old ≡ port_slots }
    ensures { Found (wanted goal) (plan_lent held.entry.lent) result out.new }
{
    match goal {
        Goal::Least => ascend(held, out),
        Goal::MarginSafe => descend(held, out),
    }
}
