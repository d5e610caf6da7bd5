// The newer form's fields without a route.
ghost use Rattle.std.specs.Prelude.{[], ◌∷◌};
ghost use Rattle.plan.specs.Layout.{Kind};
ghost use Rattle.field_writing.specs.Answer.{write_of};
ghost use Rattle.field_writing.specs.Writes.{Writes};

use crate::WriteRefusal;
use crate::field::write_field;
use crate::narrow::narrow;
use numbers::clock::Clock;
use plan::Form;
use plan::layout::{HEAD_SIZE, HEADER2_SIZE, PORT2_SIZE};
use writing::newer::{put_header2, put_port2};

// The header with the clocks' numbers.
pub fn write_header2(
    guard: u32,
    top: u32,
    drift: u32,
    timing_jitter: u32,
    sync_error: u32,
    buffer: &mut [u8],
) -> Result<usize, WriteRefusal>
    ensures { Writes Kind.header2 (guard ∷ top ∷ drift ∷ timing_jitter ∷ sync_error ∷ []) []
        buffer.old (write_of result) buffer.new }
{
    let mut field = [0u8; HEAD_SIZE + HEADER2_SIZE];
    let clock = Clock {
        drift,
        timing_jitter,
        sync_error,
    };
    put_header2(&mut field, guard, top, clock);
    write_field(Form::Newer, &field, buffer)
}

// A port with its extra bytes.
pub fn write_port2(
    number: u32,
    rate: u32,
    blocking: u32,
    extra: u32,
    buffer: &mut [u8],
) -> Result<usize, WriteRefusal>
    ensures { Writes Kind.port2 (number ∷ rate ∷ blocking ∷ extra ∷ []) [] buffer.old (write_of result) buffer.new }
{
    let mut field = [0u8; HEAD_SIZE + PORT2_SIZE];
    put_port2(
        &mut field,
        narrow(number),
        rate,
        narrow(blocking),
        narrow(extra),
    );
    write_field(Form::Newer, &field, buffer)
}
