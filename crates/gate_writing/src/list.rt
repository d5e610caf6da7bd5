// A cycle, and the list of two.
ghost use Rattle.std.specs.Prelude.{◌≡◌};
ghost use Rattle.writing.specs.Laid.{laid};
ghost use Rattle.gate_writing.specs.List.{cycle_of, cycle_size, list_of, list_size_by, ListFits};

use crate::gate::{lasting_size, put_lasting};
use crate::states::{both_closed, queue_bit};
use numbers::port::window;

fn cycle_size(guard: u64, window: u64) -> usize
    ensures { result ≡ cycle_size guard window }
{
    lasting_size(guard) + lasting_size(window) + lasting_size(guard)
}

// How many bytes the list is.
pub(crate) fn list_size(guard: u32, duration: u64) -> usize
    ensures { result ≡ list_size_by guard duration }
{
    2 * cycle_size(u64::from(guard), window(guard, duration))
}

// The guard band with both queues closed, the window with one open, the guard band again.
fn put_cycle(out: &mut [u8], closed: u8, opened: u8, guard: u32, window: u32)
    ensures { out.new ≡ laid (cycle_of closed opened guard window) out.old }
{
    let first = lasting_size(guard as u64);
    let second = first + lasting_size(window as u64);
    if out.len() < second + first {
        return;
    }
    put_lasting(out, closed, guard);
    put_lasting(&mut out[first..], opened, window);
    put_lasting(&mut out[second..], closed, guard);
}

// The even queue is open in the first cycle, the odd one in the second.
pub(crate) fn put_list(out: &mut [u8], guard: u32, duration: u64, even: u64, odd: u64)
    requires { ListFits guard duration even odd }
    ensures { out.new ≡ laid (list_of guard duration even odd) out.old }
{
    let lasts = window(guard, duration) as u32;
    let cycle = cycle_size(guard as u64, lasts as u64);
    if out.len() < 2 * cycle {
        return;
    }
    let closed = both_closed(even, odd);
    put_cycle(out, closed, closed + queue_bit(even), guard, lasts);
    put_cycle(
        &mut out[cycle..],
        closed,
        closed + queue_bit(odd),
        guard,
        lasts,
    );
}
