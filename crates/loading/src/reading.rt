// A whole plan read into fresh tables: test 1; fields from the front, each tested for 2 to 7, strictly
// with 12 between 6 and 7; then 8, then 9.

ghost use Rattle.std.specs.Prelude.{◌≡◌};
ghost use Rattle.cqf.specs.Bounded.{within};
ghost use Rattle.cqf.specs.Plan.{no_plan};
ghost use Rattle.plan.specs.Answer.{form_of};
ghost use Rattle.plan_reading.specs.Reading.{max_bytes, read_form};
ghost use Rattle.loading.specs.Answer.{mode_of};
ghost use Rattle.loading.specs.Loading.{tables_of, answer_of, ClosesWith};

use crate::absent::any_absent;
use crate::field::{Place, step, strict_in};
use crate::first::first_absent;
use crate::store::{HEADER_KEY, KEYS, Tally};
use crate::{Loaded, MAX_BYTES};
use plan::{Fault, Form, Refusal};
use tables::{PORTS, Planner};

// All fields are read: the tests 8 and 9. The fields are looked at again only where something is absent that one of them names.
fn close(plan: &[u8], tables: &Planner, tally: &Tally) -> Result<Loaded, Refusal>
    ensures { ClosesWith plan.now tables.now tally.now result }
{
    if tally.seen[HEADER_KEY] == 0 || tally.flows == 0 {
        return Err(Refusal {
            fault: Fault::Incomplete,
            offset: plan.len(),
        });
    }
    if any_absent(&tally.named, &tally.seen) {
        return Err(Refusal {
            fault: Fault::NotInPlan,
            offset: first_absent(plan, &tables.rates, &tables.periods),
        });
    }
    Ok(Loaded {
        ports: tally.ports,
        flows: tally.flows,
    })
}

// Test 1.
fn size_ok(size: usize) -> bool
    ensures { result ≡ within 1 max_bytes size }
{
    1 <= size && size <= MAX_BYTES
}

// The bytes read as a plan of this form, in either reading, into tables that are all 0: what the rules answer. The tables then hold the
// plan where it is accepted, and what was read of it where not.
pub(crate) fn read_tables(
    form: Form,
    strict: bool,
    plan: &[u8],
    tables: &mut Planner,
) -> Result<Loaded, Refusal>
    requires { tables_of tables.old ≡ no_plan }
    ensures { answer_of (tables_of tables.new) result ≡ read_form (form_of form) (mode_of strict) plan.now }
{
    if !size_ok(plan.len()) {
        return Err(Refusal {
            fault: Fault::Size,
            offset: 0,
        });
    }
    let strictly = strict_in(form, strict);
    let mut tally = Tally {
        ports: 0,
        flows: 0,
        seen: [0; KEYS],
        named: [0; PORTS],
    };
    let mut place = Place { at: 0, last: 0 };
    while place.at < plan.len() {
        place = step(form, strictly, plan, place, tables, &mut tally)?;
    }
    close(plan, tables, &tally)
}
