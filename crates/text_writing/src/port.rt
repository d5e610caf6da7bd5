// The lines of the ports, by rising number.
ghost use Rattle.std.specs.Prelude.{◌+◌, ◌*◌, ◌≤◌, ◌<◌};
ghost use Rattle.cqf.specs.Limits.{port_slots};
ghost use Rattle.plan_text.specs.Print.{lines_bytes, lines_to};
ghost use Rattle.tables.specs.Lent.{plan_lent};
ghost use Rattle.text_writing.specs.Puts.{Puts, far_text};
ghost use Rattle.text_writing.specs.Bytes.{port_bytes, most_port, port_at};

use crate::word::{put_end, put_first, put_pair, put_unless};
use tables::{Held, PORTS};

// The line of a port with these numbers.
fn put_port(out: &mut [u8], at: usize, number: u32, rate: u32, blocking: u32, extra: u32) -> usize
    requires { at ≤ far_text }
    ensures { Puts most_port (port_bytes number rate blocking extra) out.old at result out.new }
{
    let named = put_first(out, at, b"port", number);
    let rated = put_pair(out, named, b"rate", rate);
    let blocked = put_unless(out, rated, b"blocker", blocking, 0);
    let added = put_unless(out, blocked, b"extra", extra, 0);
    put_end(out, added)
}

// The line of a slot, if it holds a port.
fn put_port_slot(held: Held, slot: usize, out: &mut [u8], at: usize) -> usize
    requires { (slot < port_slots) × (at ≤ far_text) }
    ensures { Puts most_port (lines_bytes (port_at (plan_lent held.entry.lent) slot)) out.old at result out.new }
{
    let lent = held.lent;
    let rate = lent.rates[slot];
    if rate == 0 {
        return at;
    }
    let blocking = u32::from(lent.blockings[slot]);
    let extra = u32::from(lent.extras[slot]);
    put_port(out, at, (slot + 1) as u32, rate, blocking, extra)
}

pub(crate) fn put_ports(held: Held, out: &mut [u8], at: usize) -> usize
    requires { at + port_slots * most_port ≤ far_text }
    ensures { Puts (port_slots * most_port) (lines_bytes (lines_to port_slots (port_at (plan_lent held.entry.lent)))) out.old at result out.new }
{
    let mut next = at;
    for slot in 0..PORTS {
        next = put_port_slot(held, slot, out, next);
    }
    next
}
