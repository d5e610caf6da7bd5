// The form of a plan: told by its bytes, and its number.

ghost use Rattle.std.specs.Prelude.{◌≡◌};
ghost use Rattle.cqf.specs.Form.{form_from, form_number};
ghost use Rattle.plan.specs.Layout.{form_by};
ghost use Rattle.plan.specs.Answer.{form_of};

use crate::Form;
use crate::layout::HEADER2_TAG;

pub fn form_by(plan: &[u8]) -> Form
    ensures { form_of result ≡ form_by plan.now }
{
    let [first, ..] = plan else {
        return Form::Older;
    };
    if *first == HEADER2_TAG {
        Form::Newer
    } else {
        Form::Older
    }
}

pub fn form_number(form: Form) -> u32
    ensures { result ≡ form_number (form_of form) }
{
    form as u32
}

// The form of a form's number: any but the first is the newer one.
pub fn form_from(number: u32) -> Form
    ensures { form_of result ≡ form_from number }
{
    match number {
        0 => Form::Older,
        _ => Form::Newer,
    }
}
