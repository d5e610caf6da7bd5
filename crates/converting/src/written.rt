// A plan in lent tables, written in one form.
ghost use Rattle.std.specs.Prelude.{◌≡◌, true};
ghost use Rattle.cqf.specs.Form.{older};
ghost use Rattle.cqf.specs.Plan.{valid_plan};
ghost use Rattle.plan.specs.Answer.{form_of};
ghost use Rattle.plan_reading.specs.Reading.{accepted};
ghost use Rattle.tables.specs.Lent.{plan_lent};
ghost use Rattle.converting.specs.Convert.{within_older};
ghost use Rattle.converting.specs.Answer.{convert_of};
ghost use Rattle.converting.specs.Outcome.{Converts};

use crate::ConvertRefusal;
use loading::{Sought, first_field};
use plan::Form;
use saving::save_tables;
use tables::Lent;
use writing::SaveRefusal;

// The plan in these tables, written in this form. They are not `Held`: that they are valid is known of the reading, and asked here alone.
pub(crate) fn write_plan(form: Form, lent: Lent, buffer: &mut [u8]) -> Result<usize, ConvertRefusal>
    requires { valid_plan (plan_lent lent) ≡ true }
    ensures { Converts (form_of form) (accepted (plan_lent lent.entry) 0 0) buffer.old (convert_of result) buffer.new }
{
    match save_tables(form, lent, buffer) {
        Ok(size) => Ok(size),
        Err(SaveRefusal::ShortBuffer(size)) => Err(ConvertRefusal::ShortBuffer(size)),
        Err(SaveRefusal::NoPlan) => unreachable!(),
    }
}

// The same in the older form, which these bytes were not read in: 16 where a flow has more ports than it allows.
pub(crate) fn write_older(
    plan: &[u8],
    lent: Lent,
    buffer: &mut [u8],
) -> Result<usize, ConvertRefusal>
    requires { valid_plan (plan_lent lent) ≡ true }
    ensures { Converts older (within_older plan.now (accepted (plan_lent lent.entry) 0 0)) buffer.old (convert_of result) buffer.new }
{
    let offset = first_field(plan, Sought::LongRoute);
    if offset < plan.len() {
        return Err(ConvertRefusal::LongRoute(offset));
    }
    write_plan(Form::Older, lent, buffer)
}
