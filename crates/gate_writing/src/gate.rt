// A field of the list, written into what remains of the buffer. A field for which there is no room is not begun.
ghost use Rattle.std.specs.Prelude.{◌≡◌};
ghost use Rattle.writing.specs.Laid.{laid};
ghost use Rattle.gate_writing.specs.List.{gate_of, lasting_of, lasting_size};

use plan::layout::HEAD_SIZE;
use writing::field::put_head;
use writing::number::{put1, put4};

const GATE_TAG: u8 = 0x21;

// Gate states (1 byte) and interval (4 bytes).
const GATE_SIZE: usize = 5;

// A whole field, and where its two numbers stand in it.
pub const FIELD_SIZE: usize = HEAD_SIZE + GATE_SIZE;

pub const STATES_AT: usize = HEAD_SIZE;

pub const INTERVAL_AT: usize = STATES_AT + 1;

// The longest list: six fields.
pub const MOST_BYTES: usize = 6 * FIELD_SIZE;

// Gate states, and for how many ns they hold.
pub(crate) fn put_gate(out: &mut [u8], states: u8, interval: u32)
    ensures { out.new ≡ laid (gate_of states interval) out.old }
{
    if out.len() < FIELD_SIZE {
        return;
    }
    put_head(out, GATE_TAG, GATE_SIZE as u16);
    put1(&mut out[STATES_AT..], states);
    put4(&mut out[INTERVAL_AT..], interval);
}

// An interval of 0 is left out.
pub(crate) fn put_lasting(out: &mut [u8], states: u8, interval: u32)
    ensures { out.new ≡ laid (lasting_of states interval) out.old }
{
    if interval != 0 {
        put_gate(out, states, interval);
    }
}

// How many bytes it is.
pub(crate) fn lasting_size(interval: u64) -> usize
    ensures { result ≡ lasting_size interval }
{
    if interval == 0 { 0 } else { FIELD_SIZE }
}
