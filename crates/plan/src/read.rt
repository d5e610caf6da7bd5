// A whole field: tests 2 to 5.

ghost use Rattle.std.specs.Prelude.{◌≡◌};
ghost use Rattle.cqf.specs.Form.{older, newer};
ghost use Rattle.plan.specs.Layout.{form_by};
ghost use Rattle.plan.specs.Field.{field_in, field_at};
ghost use Rattle.plan.specs.Answer.{form_of, field_read_of};

use crate::forms::form_by;
use crate::layout::{
    CLOCK_TAG, EXTRA_TAG, FLOW_TAG, FLOW2_TAG, HEAD_SIZE, HEADER_TAG, HEADER2_TAG, JITTER_TAG,
    PORT_TAG, PORT2_TAG,
};
use crate::split::{field_value, split_head};
use crate::value::value_of;
use crate::{
    Extra, Fault, FieldAt, Flow, Flow2, Form, Header, Header2, Jitter, Port, Port2, Refusal,
};
use numbers::clock::Clock;

// The field by its tag in a plan of the older form, with its value: tests 3, 4 and 5.
fn older_field(tag: u8, value: &[u8], at: usize, next: usize) -> Result<FieldAt, Refusal>
    ensures { field_read_of result ≡ field_in older tag value.now at next }
{
    match tag {
        HEADER_TAG => value_of::<Header>(value, at, next),
        PORT_TAG => value_of::<Port>(value, at, next),
        FLOW_TAG => value_of::<Flow>(value, at, next),
        EXTRA_TAG => value_of::<Extra>(value, at, next),
        JITTER_TAG => value_of::<Jitter>(value, at, next),
        CLOCK_TAG => value_of::<Clock>(value, at, next),
        _ => Err(Refusal {
            fault: Fault::UnknownTag,
            offset: at,
        }),
    }
}

// The same in a plan of the newer form.
fn newer_field(tag: u8, value: &[u8], at: usize, next: usize) -> Result<FieldAt, Refusal>
    ensures { field_read_of result ≡ field_in newer tag value.now at next }
{
    match tag {
        HEADER2_TAG => value_of::<Header2>(value, at, next),
        PORT2_TAG => value_of::<Port2>(value, at, next),
        FLOW2_TAG => value_of::<Flow2>(value, at, next),
        _ => Err(Refusal {
            fault: Fault::UnknownTag,
            offset: at,
        }),
    }
}

fn field_of(form: Form, tag: u8, value: &[u8], at: usize, next: usize) -> Result<FieldAt, Refusal>
    ensures { field_read_of result ≡ field_in (form_of form) tag value.now at next }
{
    match form {
        Form::Older => older_field(tag, value, at, next),
        Form::Newer => newer_field(tag, value, at, next),
    }
}

// The field at this offset of a plan of this form, with the offset after it, or the first of tests 2 to 5 that refuses it.
pub fn field_at(form: Form, plan: &[u8], at: usize) -> Result<FieldAt, Refusal>
    ensures { field_read_of result ≡ field_at (form_of form) plan.now at }
{
    let Some(head) = split_head(plan, at) else {
        return Err(Refusal {
            fault: Fault::Truncated,
            offset: at,
        });
    };
    let next = at + HEAD_SIZE + head.size;
    field_of(form, head.tag, field_value(plan, at), at, next)
}

// The same of a plan of the form that its bytes tell.
pub fn read_field(plan: &[u8], at: usize) -> Result<FieldAt, Refusal>
    ensures { field_read_of result ≡ field_at (form_by plan.now) plan.now at }
{
    field_at(form_by(plan), plan, at)
}
