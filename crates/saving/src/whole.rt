// All fields of a plan in a form, kind by kind.
ghost use Rattle.std.specs.Prelude.{◌≡◌, ◌≤◌, length};
ghost use Rattle.plan.specs.Answer.{form_of};
ghost use Rattle.plan_reading.specs.Saved.{form_bytes};
ghost use Rattle.tables.specs.Lent.{plan_lent};
ghost use Rattle.writing.specs.Laid.{over};
ghost use Rattle.saving.specs.Slots.{saved_size};

use crate::kind::{kind_at, kinds};
use crate::size::slots_size;
use crate::slots::put_slots;
use plan::Form;
use tables::Held;

// How many bytes they are.
pub(crate) fn saved_size(held: Held, form: Form) -> usize
    ensures { result ≡ saved_size (form_of form) (plan_lent held.entry.lent) }
{
    let mut size: usize = 0;
    for k in 0..kinds(form) {
        size += slots_size(held, kind_at(form, k));
    }
    size
}

// Each kind is written behind those before it.
pub(crate) fn put_fields(held: Held, form: Form, out: &mut [u8])
    requires { length (form_bytes (form_of form) (plan_lent held.lent)) ≤ length out.old }
    ensures { out.new ≡ over (form_bytes (form_of form) (plan_lent held.entry.lent)) out.old }
{
    let mut at: usize = 0;
    for k in 0..kinds(form) {
        at += put_slots(held, kind_at(form, k), &mut out[at..]);
    }
}
