// The least admissible duration from a start on, upwards by the most that a port needs.
ghost use Rattle.std.specs.Prelude.{◌≡◌, ◌≤◌, length};
ghost use Rattle.cqf.specs.Limits.{port_slots};
ghost use Rattle.cqf.specs.Need.{least_from};
ghost use Rattle.tables.specs.Lent.{plan_lent};

use super::need_at::need_within;
use tables::Held;

// The least admissible duration from a start on, or one above top where there is none. None from the start to below t is
// admissible, and where a port needs more than t, none is below that.
pub(crate) fn first_from(held: Held, start: u64, out: &mut [u64]) -> u64
    requires { (1 ≤ start) × (start ≤ held.lent.top) × (length out.old ≡ port_slots) }
    ensures { result ≡ least_from (plan_lent held.entry.lent) start }
{
    let above = held.lent.top as u64 + 1;
    let mut t = start;
    loop {
        let most = need_within(held, 1, t, out);
        if most <= t {
            return t;
        }
        t = most.min(above);
    }
}
