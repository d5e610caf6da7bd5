// The wire format: tags, where each number stands in the value of its field, and sizes; and where the route of a field starts.

ghost use Rattle.std.specs.Prelude.{◌≡◌};
ghost use Rattle.plan.specs.Layout.{numbers_size, flow_kind};
ghost use Rattle.plan.specs.Answer.{field_of, form_of};

use crate::{Field, Form};

// Tag (1 byte) and length (2 bytes).
pub const SIZE_AT: usize = 1;

pub const HEAD_SIZE: usize = SIZE_AT + 2;

// A port of a route.
pub const HOP_SIZE: usize = 2;

pub const HEADER_TAG: u8 = 1;

pub const GUARD_AT: usize = 0;

pub const TOP_AT: usize = GUARD_AT + 4;

pub const HEADER_SIZE: usize = TOP_AT + 4;

pub const PORT_TAG: u8 = 2;

pub const PORT_AT: usize = 0;

pub const RATE_AT: usize = PORT_AT + 2;

pub const BLOCKING_AT: usize = RATE_AT + 4;

pub const PORT_SIZE: usize = BLOCKING_AT + 2;

pub const FLOW_TAG: u8 = 3;

// The most ports that a flow's field names.
pub const MAX_HOPS: usize = numbers::limits::OLDER_MAX_HOPS as usize;

pub const FLOW_AT: usize = 0;

pub const PERIOD_AT: usize = FLOW_AT + 2;

pub const COUNT_AT: usize = PERIOD_AT + 4;

pub const LENGTH_AT: usize = COUNT_AT + 2;

// A flow's value before its route.
pub const FLOW_SIZE: usize = LENGTH_AT + 2;

pub const EXTRA_TAG: u8 = 4;

pub const EXTRA_PORT_AT: usize = 0;

pub const EXTRA_AT: usize = EXTRA_PORT_AT + 2;

pub const EXTRA_SIZE: usize = EXTRA_AT + 2;

pub const JITTER_TAG: u8 = 5;

pub const JITTER_FLOW_AT: usize = 0;

pub const JITTER_AT: usize = JITTER_FLOW_AT + 2;

pub const JITTER_SIZE: usize = JITTER_AT + 4;

pub const CLOCK_TAG: u8 = 6;

pub const DRIFT_AT: usize = 0;

pub const TIMING_JITTER_AT: usize = DRIFT_AT + 4;

pub const SYNC_ERROR_AT: usize = TIMING_JITTER_AT + 4;

pub const CLOCK_SIZE: usize = SYNC_ERROR_AT + 4;

// The newer form's fields begin as the older ones of their kind do.
pub const HEADER2_TAG: u8 = 0x11;

pub const HEADER2_DRIFT_AT: usize = HEADER_SIZE;

pub const HEADER2_TIMING_JITTER_AT: usize = HEADER2_DRIFT_AT + 4;

pub const HEADER2_SYNC_ERROR_AT: usize = HEADER2_TIMING_JITTER_AT + 4;

pub const HEADER2_SIZE: usize = HEADER2_SYNC_ERROR_AT + 4;

pub const PORT2_TAG: u8 = 0x12;

pub const PORT2_EXTRA_AT: usize = PORT_SIZE;

pub const PORT2_SIZE: usize = PORT2_EXTRA_AT + 2;

pub const FLOW2_TAG: u8 = 0x13;

pub const FLOW2_MAX_HOPS: usize = numbers::limits::MAX_HOPS as usize;

pub const FLOW2_JITTER_AT: usize = FLOW_SIZE;

// Its value before its route.
pub const FLOW2_SIZE: usize = FLOW2_JITTER_AT + 4;

// Where the route starts in the value of a flow of a plan of this form.
pub(crate) fn flow_start(form: Form) -> usize
    ensures { result ≡ numbers_size (flow_kind (form_of form)) }
{
    match form {
        Form::Older => FLOW_SIZE,
        Form::Newer => FLOW2_SIZE,
    }
}

// Where the route of a field starts in its value: behind its other numbers.
pub fn route_start(field: Field) -> usize
    ensures { result ≡ numbers_size (field_of field).kind }
{
    match field {
        Field::Header(_) => HEADER_SIZE,
        Field::Port(_) => PORT_SIZE,
        Field::Flow(_) => FLOW_SIZE,
        Field::Extra(_) => EXTRA_SIZE,
        Field::Jitter(_) => JITTER_SIZE,
        Field::Clock(_) => CLOCK_SIZE,
        Field::Header2(_) => HEADER2_SIZE,
        Field::Port2(_) => PORT2_SIZE,
        Field::Flow2(_) => FLOW2_SIZE,
    }
}
