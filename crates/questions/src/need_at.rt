// The most that a port needs at a duration.
ghost use Rattle.std.specs.Prelude.{◌≡◌, cond, length};
ghost use Rattle.cqf.specs.Bounded.{within};
ghost use Rattle.cqf.specs.Limits.{port_slots};
ghost use Rattle.cqf.specs.Need.{largest_need};
ghost use Rattle.tables.specs.Lent.{plan_lent};

use super::demand::demands;
use super::need::neediest;
use numbers::limits::between;
use tables::Held;

// The most that a port needs at a duration from low to top; 0 at any other, where nothing is worked out. The demands are worked out in
// out, which the caller lends: it is on the stack once.
pub(crate) fn need_within(held: Held, low: u64, duration: u64, out: &mut [u64]) -> u64
    requires { length out.old ≡ port_slots }
    ensures { result ≡ cond (within low held.entry.lent.top duration) (largest_need (plan_lent held.entry.lent) duration) 0 }
{
    if !between(low, held.lent.top as u64, duration) {
        return 0;
    }
    demands(held, duration, out);
    neediest(held.lent, &out[..]).needed
}
