// The run of admissible durations that ends at a duration, downwards by the most that a port needs.
ghost use Rattle.std.specs.Prelude.{◌≡◌, suc, ◌≤◌, length};
ghost use Rattle.cqf.specs.Limits.{port_slots};
ghost use Rattle.tables.specs.Lent.{plan_lent};
ghost use Rattle.questions.specs.Run.{RunDown};

use super::need_at::need_within;
use tables::Held;

// The largest refused duration from low to high, or one below low where there is none. Every duration from below + 1 to high is
// admissible, and where no port fails at below, none does from there down to the most that one needs there.
pub(crate) fn refused_below(held: Held, low: u64, high: u64, out: &mut [u64]) -> u64
    requires { (1 ≤ low) × (low ≤ suc high) × (high ≤ held.lent.top) × (length out.old ≡ port_slots) }
    ensures { RunDown (plan_lent held.entry.lent) low high result }
{
    let mut below = high;
    loop {
        let needed = need_within(held, low, below, out);
        let most = needed.max(low);
        if below < most {
            return below;
        }
        below = most - 1;
    }
}
