// The kinds of field that a plan is saved as in each form. Header and clocks have one slot.
ghost use Rattle.std.specs.Prelude.{◌≡◌};
ghost use Rattle.cqf.specs.Form.{older, newer};
ghost use Rattle.plan.specs.Answer.{form_of};
ghost use Rattle.saving.specs.Slots.{slots_of, kinds_in, kind_at};

use plan::Form;
use tables::{FLOWS, PORTS};

// plan's `Field` has a field's numbers beside its kind; this is the kind alone.
#[derive(Clone, Copy)]
pub(crate) enum Kind {
    Header,
    Port,
    Flow,
    Extra,
    Jitter,
    Clock,
    Header2,
    Port2,
    Flow2,
}

// How many kinds a form has.
pub(crate) fn kinds(form: Form) -> usize
    ensures { result ≡ kinds_in (form_of form) }
{
    match form {
        Form::Older => 6,
        Form::Newer => 3,
    }
}

fn older_kind(k: usize) -> Kind
    ensures { result ≡ kind_at older k }
{
    match k {
        0 => Kind::Header,
        1 => Kind::Port,
        2 => Kind::Flow,
        3 => Kind::Extra,
        4 => Kind::Jitter,
        _ => Kind::Clock,
    }
}

fn newer_kind(k: usize) -> Kind
    ensures { result ≡ kind_at newer k }
{
    match k {
        0 => Kind::Header2,
        1 => Kind::Port2,
        _ => Kind::Flow2,
    }
}

// The kinds of a form in the order in which they are saved, by place: a slice of them would need the same fact for each of its places.
pub(crate) fn kind_at(form: Form, k: usize) -> Kind
    ensures { result ≡ kind_at (form_of form) k }
{
    match form {
        Form::Older => older_kind(k),
        Form::Newer => newer_kind(k),
    }
}

// How many slots there are for a kind.
pub(crate) fn slots(kind: Kind) -> usize
    ensures { result ≡ slots_of kind }
{
    match kind {
        Kind::Header | Kind::Clock | Kind::Header2 => 1,
        Kind::Port | Kind::Extra | Kind::Port2 => PORTS,
        Kind::Flow | Kind::Jitter | Kind::Flow2 => FLOWS,
    }
}
