// The load of a planner by value: the plan is read into fresh tables, which the planner becomes where the plan is accepted.

ghost use Rattle.plan_reading.specs.Reading.{loose, strict};
ghost use Rattle.plan.specs.Answer.{form_of};
ghost use Rattle.tables.specs.Tables.{plan_of};
ghost use Rattle.loading.specs.Answer.{Loads, LoadsForm, mode_of};

use crate::LoadOutcome;
use crate::reading::read_tables;
use plan::{Form, form_by, form_number};
use tables::{Planner, empty};

// Bytes read as a plan of this form, in either reading. The plan in them is held in place of the one before, where the rules find no
// refusal; otherwise the planner is given back as it came.
pub fn read_form(form: Form, strict: bool, planner: Planner, plan: &[u8]) -> LoadOutcome
    ensures { LoadsForm (form_of form) (mode_of strict) (plan_of planner) planner.form plan.now result }
{
    let mut held = empty();
    let answer = read_tables(form, strict, plan, &mut held);
    held.form = form_number(form);
    match answer {
        Ok(_) => LoadOutcome {
            planner: held,
            answer,
        },
        Err(_) => LoadOutcome { planner, answer },
    }
}

// A load in either reading, by the form that the bytes tell.
pub fn read_plan(strict: bool, planner: Planner, plan: &[u8]) -> LoadOutcome
    ensures { Loads (mode_of strict) (plan_of planner) planner.form plan.now result }
{
    read_form(form_by(plan), strict, planner, plan)
}

// The load: fields may stand in any order, but for those of a plan of the newer form.
pub fn load(planner: Planner, plan: &[u8]) -> LoadOutcome
    ensures { Loads loose (plan_of planner) planner.form plan.now result }
{
    read_plan(false, planner, plan)
}

// The strict load: each field stands before all that follow it, by tag and number, or the plan is refused.
pub fn load_strict(planner: Planner, plan: &[u8]) -> LoadOutcome
    ensures { Loads strict (plan_of planner) planner.form plan.now result }
{
    read_plan(true, planner, plan)
}
