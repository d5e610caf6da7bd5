// One field of a plan that is being read: the tests 2 to 7, with 12 between 6 and 7, and the field stored.

ghost use Rattle.std.specs.Prelude.{◌≤◌, ◌≡◌, length};
ghost use Rattle.cqf.specs.Limits.{port_slots};
ghost use Rattle.plan.specs.Field.{field, field_at};
ghost use Rattle.plan_reading.specs.Reading.{mode_in, late, step_at, max_bytes};
ghost use Rattle.plan.specs.Answer.{form_of, field_of};
ghost use Rattle.loading.specs.Answer.{mode_of};
ghost use Rattle.loading.specs.Loading.{draft_of, progress_of, Names};

use crate::repeat::{field_route, mark_named};
use crate::store::{Tally, key_of, store_field};
use plan::read::field_at;
use plan::{Fault, Field, FieldAt, Form, Refusal};
use tables::Planner;

// Where the reading has come to: the offset of the next field, and the key of the field in front of it.
#[derive(Clone, Copy)]
pub(crate) struct Place {
    pub at: usize,
    pub last: usize,
}

// Whether a plan of this form is read strictly: one of the newer form always is. It stays a flag: one test asks it, and `read_plan` takes it so.
pub(crate) fn strict_in(form: Form, strict: bool) -> bool
    ensures { mode_of result ≡ mode_in (form_of form) (mode_of strict) }
{
    match form {
        Form::Older => strict,
        Form::Newer => true,
    }
}

// Test 12, of the strict reading only: whether a field should have stood earlier, last being the key of the field in front of it.
fn is_late(strict: bool, field: Field, last: usize) -> bool
    ensures { result ≡ late (mode_of strict) last (field_of field) }
{
    strict && key_of(field) < last
}

// A field that passed the tests 2 to 5: the tests 6, 12 and 7, and the field stored, in a plan of this form.
fn take_field(
    form: Form,
    strict: bool,
    plan: &[u8],
    place: Place,
    x: Field,
    next: usize,
    tables: &mut Planner,
    tally: &mut Tally,
) -> Result<Place, Refusal>
    requires ports { tally.old.ports ≤ max_bytes }
    requires flows { tally.old.flows ≤ max_bytes }
    requires named { length tally.old.named ≡ port_slots }
    requires found { field_at (form_of form) plan.now place.at ≡ field (field_of x) next }
    ensures steps { progress_of result tables.new tally.new
        ≡ step_at (form_of form) (mode_of strict) plan.now place.at place.last (draft_of tables.old tally.old) }
    ensures names { Names result tally.old.named tally.new.named plan.now place.at }
{
    let key = key_of(x);
    if 0 < tally.seen[key] {
        return Err(Refusal {
            fault: Fault::Duplicate,
            offset: place.at,
        });
    }
    if is_late(strict, x, place.last) {
        return Err(Refusal {
            fault: Fault::OutOfOrder,
            offset: place.at,
        });
    }
    let route = field_route(plan, place.at, x, next);
    if mark_named(route, &mut tally.named) {
        return Err(Refusal {
            fault: Fault::RepeatedPort,
            offset: place.at,
        });
    }
    store_field(x, route, tables, tally);
    Ok(Place {
        at: next,
        last: key,
    })
}

// The field at this place of a plan of this form, and the place after it.
pub(crate) fn step(
    form: Form,
    strict: bool,
    plan: &[u8],
    place: Place,
    tables: &mut Planner,
    tally: &mut Tally,
) -> Result<Place, Refusal>
    requires ports { tally.old.ports ≤ max_bytes }
    requires flows { tally.old.flows ≤ max_bytes }
    requires named { length tally.old.named ≡ port_slots }
    ensures steps { progress_of result tables.new tally.new
        ≡ step_at (form_of form) (mode_of strict) plan.now place.at place.last (draft_of tables.old tally.old) }
    ensures names { Names result tally.old.named tally.new.named plan.now place.at }
{
    let FieldAt { field, next } = field_at(form, plan, place.at)?;
    take_field(form, strict, plan, place, field, next, tables, tally)
}
