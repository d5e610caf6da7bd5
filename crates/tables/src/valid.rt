// Whether the tables hold a plan that the rules accept; any other tables are answered as ones that hold no plan.
ghost use Rattle.std.specs.Prelude.{◌≡◌};
ghost use Rattle.cqf.specs.Plan.{valid_plan};
ghost use Rattle.tables.specs.Lent.{plan_lent};

use crate::Lent;
use crate::flows::{any_present, valid_flows};
use crate::ports::valid_ports;
use numbers::clock::clock_ok;
use numbers::limits::{guard_ok, top_ok};

// A function of its own in the machine: where it is part of `hold`, its loops prepare at each slot what `hold` gives of no plan.
#[inline(never)]
pub fn valid_tables(lent: Lent) -> bool
    ensures { result ≡ valid_plan (plan_lent lent.entry) }
{
    top_ok(lent.top)
        && guard_ok(lent.guard)
        && clock_ok(lent.clock)
        && valid_ports(lent)
        && valid_flows(lent)
        && any_present(lent)
}
