// The older form's fields without a route. Each kind has a function of its own, for its own numbers: one over a list of them would name none.
ghost use Rattle.std.specs.Prelude.{[], ◌∷◌};
ghost use Rattle.plan.specs.Layout.{Kind};
ghost use Rattle.field_writing.specs.Answer.{write_of};
ghost use Rattle.field_writing.specs.Writes.{Writes};

use crate::WriteRefusal;
use crate::field::write_field;
use crate::narrow::narrow;
use numbers::clock::Clock;
use plan::Form;
use plan::layout::{CLOCK_SIZE, EXTRA_SIZE, HEAD_SIZE, HEADER_SIZE, JITTER_SIZE, PORT_SIZE};
use writing::field::{put_clock, put_extra, put_header, put_jitter, put_port};

pub fn write_header(guard: u32, top: u32, buffer: &mut [u8]) -> Result<usize, WriteRefusal>
    ensures { Writes Kind.header (guard ∷ top ∷ []) [] buffer.old (write_of result) buffer.new }
{
    let mut field = [0u8; HEAD_SIZE + HEADER_SIZE];
    put_header(&mut field, guard, top);
    write_field(Form::Older, &field, buffer)
}

pub fn write_port(
    number: u32,
    rate: u32,
    blocking: u32,
    buffer: &mut [u8],
) -> Result<usize, WriteRefusal>
    ensures { Writes Kind.port (number ∷ rate ∷ blocking ∷ []) [] buffer.old (write_of result) buffer.new }
{
    let mut field = [0u8; HEAD_SIZE + PORT_SIZE];
    put_port(&mut field, narrow(number), rate, narrow(blocking));
    write_field(Form::Older, &field, buffer)
}

// A port's number and the bytes that it adds to each frame.
pub fn write_extra(number: u32, extra: u32, buffer: &mut [u8]) -> Result<usize, WriteRefusal>
    ensures { Writes Kind.extra (number ∷ extra ∷ []) [] buffer.old (write_of result) buffer.new }
{
    let mut field = [0u8; HEAD_SIZE + EXTRA_SIZE];
    put_extra(&mut field, narrow(number), narrow(extra));
    write_field(Form::Older, &field, buffer)
}

// A flow's number and its release jitter.
pub fn write_jitter(number: u32, jitter: u32, buffer: &mut [u8]) -> Result<usize, WriteRefusal>
    ensures { Writes Kind.jitter (number ∷ jitter ∷ []) [] buffer.old (write_of result) buffer.new }
{
    let mut field = [0u8; HEAD_SIZE + JITTER_SIZE];
    put_jitter(&mut field, narrow(number), jitter);
    write_field(Form::Older, &field, buffer)
}

pub fn write_clocks(
    drift: u32,
    timing_jitter: u32,
    sync_error: u32,
    buffer: &mut [u8],
) -> Result<usize, WriteRefusal>
    ensures { Writes Kind.clock (drift ∷ timing_jitter ∷ sync_error ∷ []) [] buffer.old (write_of result) buffer.new }
{
    let mut field = [0u8; HEAD_SIZE + CLOCK_SIZE];
    let clock = Clock {
        drift,
        timing_jitter,
        sync_error,
    };
    put_clock(&mut field, clock);
    write_field(Form::Older, &field, buffer)
}
