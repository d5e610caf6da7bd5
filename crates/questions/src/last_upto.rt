// The largest admissible duration up to a given one, downwards past durations that some port needs more than.
ghost use Rattle.std.specs.Prelude.{◌≡◌, ◌≤◌, ◌<◌, length};
ghost use Rattle.cqf.specs.Limits.{port_slots};
ghost use Rattle.cqf.specs.Need.{largest_need};
ghost use Rattle.tables.specs.Lent.{plan_lent};
ghost use Rattle.questions.specs.Nearest.{most_up_to};

use super::need_at::need_within;
use tables::Held;

// The least duration at which some port needs more than a given one that it fails at, by halving: nothing from there to the given
// one is admissible. What is promised does not rest on its being the least.
fn outgrown(held: Held, duration: u64, out: &mut [u64]) -> u64
    requires range { (1 ≤ duration) × (duration ≤ held.lent.top) × (length out.old ≡ port_slots) }
    requires duration_bound { duration < largest_need (plan_lent held.lent) duration }
    ensures { (1 ≤ result) × (result ≤ duration) × (duration < largest_need (plan_lent held.entry.lent) result) }
{
    let mut under: u64 = 0;
    let mut over = duration;
    while under + 1 < over {
        let middle = (under + over) / 2;
        let most = need_within(held, 1, middle, out);
        if duration < most {
            over = middle;
        } else {
            under = middle;
        }
    }
    over
}

// The largest admissible duration up to a given one, or 0 where there is none. None above at is admissible.
pub(crate) fn last_upto(held: Held, duration: u64, out: &mut [u64]) -> u64
    requires { (duration ≤ held.lent.top) × (length out.old ≡ port_slots) }
    ensures { result ≡ most_up_to (plan_lent held.entry.lent) duration }
{
    let mut at = duration;
    loop {
        let most = need_within(held, 1, at, out);
        if most <= at {
            return at;
        }
        at = outgrown(held, at, out) - 1;
    }
}
