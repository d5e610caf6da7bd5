// The newer form's fields without a route, each written into what remains of the buffer. A field for which there is no room is not
// begun.
ghost use Rattle.std.specs.Prelude.{◌≡◌};
ghost use Rattle.numbers.specs.Clock.{clock_of};
ghost use Rattle.writing.specs.Laid.{laid};
ghost use Rattle.writing.specs.Fields.{header2_bytes, port2_bytes};

use crate::field::{begin_header, begin_port, put_clock_numbers};
use crate::number::put2;
use numbers::clock::Clock;
use plan::layout::{
    HEAD_SIZE, HEADER2_DRIFT_AT, HEADER2_SIZE, HEADER2_TAG, PORT2_EXTRA_AT, PORT2_SIZE, PORT2_TAG,
};

// Where the numbers stand that the older form has in fields of their own.
const CLOCK: usize = HEAD_SIZE + HEADER2_DRIFT_AT;

const EXTRA: usize = HEAD_SIZE + PORT2_EXTRA_AT;

// The header with the clocks' numbers.
pub fn put_header2(out: &mut [u8], guard: u32, top: u32, clock: Clock)
    ensures { out.new ≡ laid (header2_bytes guard top (clock_of clock)) out.old }
{
    if out.len() < HEAD_SIZE + HEADER2_SIZE {
        return;
    }
    begin_header(out, HEADER2_TAG, HEADER2_SIZE as u16, guard, top);
    put_clock_numbers(&mut out[CLOCK..], clock);
}

// A port with its extra bytes.
pub fn put_port2(out: &mut [u8], number: u16, rate: u32, blocking: u16, extra: u16)
    ensures { out.new ≡ laid (port2_bytes number rate blocking extra) out.old }
{
    if out.len() < HEAD_SIZE + PORT2_SIZE {
        return;
    }
    begin_port(out, PORT2_TAG, PORT2_SIZE as u16, number, rate, blocking);
    put2(&mut out[EXTRA..], extra);
}
