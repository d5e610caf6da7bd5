// Bytes read as a plan of one form into lent tables, which hold that plan alone afterwards, or none.

ghost use Rattle.std.specs.Prelude.{◌≡◌};
ghost use Rattle.cqf.specs.Plan.{no_plan};
ghost use Rattle.numbers.specs.Clock.{clock_of};
ghost use Rattle.plan.specs.Answer.{form_of};
ghost use Rattle.tables.specs.Columns.{plan_by};
ghost use Rattle.loading.specs.Answer.{mode_of};
ghost use Rattle.loading.specs.Lent.{ReadsForm};
ghost use Rattle.loading.specs.Loading.{tables_of};

use crate::Loaded;
use crate::reading::read_tables;
use numbers::clock::Clock;
use plan::{Form, Refusal};
use tables::{FLOWS, PORTS, Planner, STRIDE};

// Every number 0, in place.
fn clear(tables: &mut Planner)
    ensures plan { tables_of tables.new ≡ no_plan }
    ensures form { tables.new.form ≡ 0 }
{
    tables.form = 0;
    tables.guard = 0;
    tables.top = 0;
    tables.clock = Clock {
        drift: 0,
        timing_jitter: 0,
        sync_error: 0,
    };
    tables.rates = [0; PORTS];
    tables.blockings = [0; PORTS];
    tables.extras = [0; PORTS];
    tables.periods = [0; FLOWS];
    tables.counts = [0; FLOWS];
    tables.lengths = [0; FLOWS];
    tables.jitters = [0; FLOWS];
    tables.hops = [0; FLOWS];
    tables.routes = [0; FLOWS * STRIDE];
}

// The bytes read as a plan of this form, in either reading: the plan in them where the rules find no refusal; otherwise every number is 0.
// The form's number is 0 in either case.
pub fn read_form_tables(
    form: Form,
    strict: bool,
    plan: &[u8],
    tables: &mut Planner,
) -> Result<Loaded, Refusal>
    ensures read { ReadsForm (form_of form) (mode_of strict) plan.now
        (plan_by tables.new.guard tables.new.top (clock_of tables.new.clock) tables.new.rates tables.new.blockings tables.new.extras
        tables.new.periods tables.new.counts tables.new.lengths tables.new.jitters tables.new.hops
        tables.new.routes)
        result }
    ensures form { tables.new.form ≡ 0 }
{
    clear(tables);
    let answer = read_tables(form, strict, plan, tables);
    match answer {
        Ok(_) => tables.form = 0,
        Err(_) => clear(tables),
    }
    answer
}
