// The search for the margin-safe duration, downwards from top, by the most that a port needs.
ghost use Rattle.std.specs.Prelude.{◌≡◌, length};
ghost use Rattle.cqf.specs.Limits.{port_slots};
ghost use Rattle.cqf.specs.Condition.{margin_safe};
ghost use Rattle.tables.specs.Lent.{plan_lent};
ghost use Rattle.questions.specs.Search.{Found};

use super::demand::demands;
use super::need::neediest;
use tables::Held;

// The margin-safe duration, or one above top where there is none. Every duration from below + 1 to top is admissible, and where
// no port fails at below, none does from there down to the most that one needs there. Where there is one, out is left with the
// demands at it.
pub(crate) fn descend(held: Held, out: &mut [u64]) -> u64
    requires { length out.old ≡ port_slots }
    ensures { Found margin_safe (plan_lent held.entry.lent) result out.new }
{
    let lent = held.lent;
    let limit = lent.top as u64;
    let mut below = limit;
    let found = loop {
        demands(held, below, out);
        let worst = neediest(lent, &out[..]);
        let most = worst.needed.max(1);
        if below < most {
            break below + 1;
        }
        below = most - 1;
    };
    if found <= limit {
        demands(held, found, out);
    }
    found
}
