// Whether the slots of the ports are empty or in range.
ghost use Rattle.std.specs.Prelude.{◌≡◌, ◌&&◌, ◌||◌, eqb};
ghost use Rattle.cqf.specs.Bounded.{all_to};
ghost use Rattle.cqf.specs.Limits.{port_slots, rate_ok, blocking_ok, extra_ok};
ghost use Rattle.cqf.specs.Plan.{valid_port};
ghost use Rattle.tables.specs.Lent.{plan_lent};

use crate::{Lent, PORTS};
use numbers::limits::{blocking_ok, extra_ok, rate_ok};

// Whether a port's slot is empty, or in range.
fn valid_port(rate: u32, blocking: u16, extra: u8) -> bool
    ensures { result ≡ (eqb rate 0 && eqb blocking 0 && eqb extra 0) || (rate_ok rate && blocking_ok blocking && extra_ok extra) }
{
    if rate == 0 {
        return blocking == 0 && extra == 0;
    }
    rate_ok(rate) && blocking_ok(blocking) && extra_ok(extra as u16)
}

pub(crate) fn valid_ports(lent: Lent) -> bool
    ensures { result ≡ all_to port_slots (valid_port (plan_lent lent.entry)) }
{
    for q in 0..PORTS {
        if !valid_port(lent.rates[q], lent.blockings[q], lent.extras[q]) {
            return false;
        }
    }
    true
}
