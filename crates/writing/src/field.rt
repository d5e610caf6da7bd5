// Fields of the older form without a route, each written into what remains of the buffer. A field for which there is no room is not begun.
ghost use Rattle.std.specs.Prelude.{◌≡◌, ◌++◌};
ghost use Rattle.plan_reading.specs.Part.{header, port, extra, jitter, clock};
ghost use Rattle.numbers.specs.Clock.{clock_of};
ghost use Rattle.writing.specs.Laid.{laid};
ghost use Rattle.writing.specs.Fields.{head_bytes, header_numbers, port_numbers, clock_numbers, field_bytes};

use crate::number::{put1, put2, put4};
use numbers::clock::Clock;
use plan::layout::{
    BLOCKING_AT, CLOCK_SIZE, CLOCK_TAG, EXTRA_AT, EXTRA_PORT_AT, EXTRA_SIZE, EXTRA_TAG, GUARD_AT,
    HEAD_SIZE, HEADER_SIZE, HEADER_TAG, JITTER_AT, JITTER_FLOW_AT, JITTER_SIZE, JITTER_TAG,
    PORT_AT, PORT_SIZE, PORT_TAG, RATE_AT, SIZE_AT, SYNC_ERROR_AT, TIMING_JITTER_AT, TOP_AT,
};

// Where each number stands in its field.
const GUARD: usize = HEAD_SIZE + GUARD_AT;

const TOP: usize = HEAD_SIZE + TOP_AT;

const PORT: usize = HEAD_SIZE + PORT_AT;

const RATE: usize = HEAD_SIZE + RATE_AT;

const BLOCKING: usize = HEAD_SIZE + BLOCKING_AT;

const EXTRA_PORT: usize = HEAD_SIZE + EXTRA_PORT_AT;

const EXTRA: usize = HEAD_SIZE + EXTRA_AT;

const JITTER_FLOW: usize = HEAD_SIZE + JITTER_FLOW_AT;

const JITTER: usize = HEAD_SIZE + JITTER_AT;

// Tag and length.
pub fn put_head(out: &mut [u8], tag: u8, size: u16)
    ensures { out.new ≡ laid (head_bytes tag size) out.old }
{
    if out.len() < HEAD_SIZE {
        return;
    }
    put1(out, tag);
    put2(&mut out[SIZE_AT..], size);
}

// Head and numbers with which the header of either form begins.
pub(crate) fn begin_header(out: &mut [u8], tag: u8, size: u16, guard: u32, top: u32)
    ensures { out.new ≡ laid (head_bytes tag size ++ header_numbers guard top) out.old }
{
    if out.len() < HEAD_SIZE + HEADER_SIZE {
        return;
    }
    put_head(out, tag, size);
    put4(&mut out[GUARD..], guard);
    put4(&mut out[TOP..], top);
}

pub fn put_header(out: &mut [u8], guard: u32, top: u32)
    ensures { out.new ≡ laid (field_bytes (header guard top)) out.old }
{
    begin_header(out, HEADER_TAG, HEADER_SIZE as u16, guard, top);
}

// Head and numbers with which a port of either form begins.
pub(crate) fn begin_port(out: &mut [u8], tag: u8, size: u16, number: u16, rate: u32, blocking: u16)
    ensures { out.new ≡ laid (head_bytes tag size ++ port_numbers number rate blocking) out.old }
{
    if out.len() < HEAD_SIZE + PORT_SIZE {
        return;
    }
    put_head(out, tag, size);
    put2(&mut out[PORT..], number);
    put4(&mut out[RATE..], rate);
    put2(&mut out[BLOCKING..], blocking);
}

pub fn put_port(out: &mut [u8], number: u16, rate: u32, blocking: u16)
    ensures { out.new ≡ laid (field_bytes (port number rate blocking)) out.old }
{
    begin_port(out, PORT_TAG, PORT_SIZE as u16, number, rate, blocking);
}

// A port's number and the bytes that it adds to each frame.
pub fn put_extra(out: &mut [u8], number: u16, bytes: u16)
    ensures { out.new ≡ laid (field_bytes (extra number bytes)) out.old }
{
    if out.len() < HEAD_SIZE + EXTRA_SIZE {
        return;
    }
    put_head(out, EXTRA_TAG, EXTRA_SIZE as u16);
    put2(&mut out[EXTRA_PORT..], number);
    put2(&mut out[EXTRA..], bytes);
}

// A flow's number and its release jitter.
pub fn put_jitter(out: &mut [u8], number: u16, ns: u32)
    ensures { out.new ≡ laid (field_bytes (jitter number ns)) out.old }
{
    if out.len() < HEAD_SIZE + JITTER_SIZE {
        return;
    }
    put_head(out, JITTER_TAG, JITTER_SIZE as u16);
    put2(&mut out[JITTER_FLOW..], number);
    put4(&mut out[JITTER..], ns);
}

// The clocks' numbers, without a head.
pub(crate) fn put_clock_numbers(out: &mut [u8], numbers: Clock)
    ensures { out.new ≡ laid (clock_numbers (clock_of numbers)) out.old }
{
    if out.len() < CLOCK_SIZE {
        return;
    }
    put4(out, numbers.drift);
    put4(&mut out[TIMING_JITTER_AT..], numbers.timing_jitter);
    put4(&mut out[SYNC_ERROR_AT..], numbers.sync_error);
}

pub fn put_clock(out: &mut [u8], numbers: Clock)
    ensures { out.new ≡ laid (field_bytes (clock (clock_of numbers))) out.old }
{
    if out.len() < HEAD_SIZE + CLOCK_SIZE {
        return;
    }
    put_head(out, CLOCK_TAG, CLOCK_SIZE as u16);
    put_clock_numbers(&mut out[HEAD_SIZE..], numbers);
}
