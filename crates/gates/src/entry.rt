// The fields of a written list, read back from its bytes: a line for each, with the gate states as two hexadecimal digits and the
// interval in ns.
ghost use Rattle.std.specs.Prelude.{◌≡◌, ◌≤◌, length};
ghost use Rattle.gate_lists.specs.GateList.{field_size};
ghost use Rattle.gate_lists.specs.Playing.{first_states, first_interval};

use gate_writing::{FIELD_SIZE, INTERVAL_AT, STATES_AT};
use std::io;

// The interval is read in two halves.
const LOW_HALF_AT: usize = INTERVAL_AT + 2;

// The gate states of the field that the bytes begin with, and its interval.
fn states(bytes: &[u8]) -> u8
    requires { field_size ≤ length bytes.now }
    ensures { result ≡ first_states bytes.now }
{
    bytes[STATES_AT]
}

fn interval(bytes: &[u8]) -> u32
    requires { field_size ≤ length bytes.now }
    ensures { result ≡ first_interval bytes.now }
{
    let high = plan::first_number(&bytes[INTERVAL_AT..]);
    let low = plan::first_number(&bytes[LOW_HALF_AT..]);
    (high as u32) * 65536 + (low as u32)
}

// A line for each field.
pub(crate) fn say_list(out: &impl Print, list: &[u8]) -> io::Result<()> {
    for field in list.chunks_exact(FIELD_SIZE) {
        let states = states(field);
        let interval = interval(field);
        println!(out; "sched-entry S {states:02x} {interval}")?;
    }
    Ok(())
}
