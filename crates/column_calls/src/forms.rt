// Tables under the top that their form allows.
ghost use Rattle.std.specs.Prelude.{◌≡◌};
ghost use Rattle.tables.specs.Lent.{plan_lent};
ghost use Rattle.column_calls.specs.Formed.{plan_formed};

use tables::{Lent, held_top};

// A top of 0 where no load can have left the routes with this form's number.
pub fn formed(form: u32, lent: Lent) -> Lent
    ensures { plan_lent result ≡ plan_formed form lent.entry }
{
    lent.upto(held_top(form, lent.hops, lent.top))
}
