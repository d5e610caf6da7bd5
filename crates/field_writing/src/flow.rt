// A flow of either form with its route, a port number a byte. A route of more ports than any form has is refused without being laid.
// Two functions, since only one takes a jitter: one of an optional jitter would let a flow of the older form have it.
ghost use Rattle.std.specs.Prelude.{[], ◌∷◌};
ghost use Rattle.plan.specs.Layout.{Kind};
ghost use Rattle.field_writing.specs.Answer.{write_of};
ghost use Rattle.field_writing.specs.Writes.{Writes};

use crate::WriteRefusal;
use crate::field::write_field;
use crate::narrow::narrow;
use plan::layout::{FLOW_SIZE, FLOW2_MAX_HOPS, FLOW2_SIZE, HEAD_SIZE, HOP_SIZE};
use plan::{Fault, Form};
use writing::flow::{put_flow, put_flow2};

// The most ports of a route in any form.
const MOST_HOPS: usize = FLOW2_MAX_HOPS;

// A flow's bytes before its route, in each form.
const ROUTE: usize = HEAD_SIZE + FLOW_SIZE;

const ROUTE2: usize = HEAD_SIZE + FLOW2_SIZE;

pub fn write_flow(
    number: u32,
    period: u32,
    count: u32,
    length: u32,
    route: &[u8],
    buffer: &mut [u8],
) -> Result<usize, WriteRefusal>
    ensures { Writes Kind.flow (number ∷ period ∷ count ∷ length ∷ []) route.now
        buffer.old (write_of result) buffer.new }
{
    let hops = route.len();
    if MOST_HOPS < hops {
        return Err(WriteRefusal::Refused(Fault::WrongLength));
    }
    let mut field = [0u8; ROUTE + HOP_SIZE * MOST_HOPS];
    put_flow(
        &mut field,
        narrow(number),
        period,
        narrow(count),
        narrow(length),
        route,
    );
    let size = ROUTE + HOP_SIZE * hops;
    write_field(Form::Older, &field[..size], buffer)
}

// The newer form's flow, with its jitter.
pub fn write_flow2(
    number: u32,
    period: u32,
    count: u32,
    length: u32,
    jitter: u32,
    route: &[u8],
    buffer: &mut [u8],
) -> Result<usize, WriteRefusal>
    ensures { Writes Kind.flow2 (number ∷ period ∷ count ∷ length ∷ jitter ∷ []) route.now
        buffer.old (write_of result) buffer.new }
{
    let hops = route.len();
    if MOST_HOPS < hops {
        return Err(WriteRefusal::Refused(Fault::WrongLength));
    }
    let mut field = [0u8; ROUTE2 + HOP_SIZE * MOST_HOPS];
    put_flow2(
        &mut field,
        narrow(number),
        period,
        narrow(count),
        narrow(length),
        jitter,
        route,
    );
    let size = ROUTE2 + HOP_SIZE * hops;
    write_field(Form::Newer, &field[..size], buffer)
}
