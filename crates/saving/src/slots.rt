// The fields of one kind, slot by slot, each written into what remains of the buffer.
ghost use Rattle.std.specs.Prelude.{◌≡◌, ◌≤◌, ◌<◌, length};
ghost use Rattle.tables.specs.Lent.{plan_lent};
ghost use Rattle.writing.specs.Laid.{laid, Puts};
ghost use Rattle.saving.specs.Slots.{slots_of, slot_bytes, kind_bytes};

use crate::clock::put_clocks;
use crate::kind::{Kind, slots};
use crate::newer::{put_flow2_slot, put_port2_slot};
use crate::size::slot_size;
use crate::slot::{put_extra_slot, put_flow_slot, put_jitter_slot, put_port_slot};
use tables::Held;
use writing::field::put_header;
use writing::newer::put_header2;

// The field of this kind in a slot, if there is one.
fn put_slot(held: Held, kind: Kind, slot: usize, out: &mut [u8])
    requires { slot < slots_of kind }
    ensures { out.new ≡ laid (slot_bytes kind (plan_lent held.entry.lent) slot) out.old }
{
    let lent = held.lent;
    match kind {
        Kind::Header => put_header(out, lent.guard, lent.top),
        Kind::Port => put_port_slot(held, slot, out),
        Kind::Flow => put_flow_slot(held, slot, out),
        Kind::Extra => put_extra_slot(held, slot, out),
        Kind::Jitter => put_jitter_slot(held, slot, out),
        Kind::Clock => put_clocks(lent, out),
        Kind::Header2 => put_header2(out, lent.guard, lent.top, lent.clock),
        Kind::Port2 => put_port2_slot(held, slot, out),
        Kind::Flow2 => put_flow2_slot(held, slot, out),
    }
}

// The fields of this kind in all slots; the answer is how many bytes they are.
pub(crate) fn put_slots(held: Held, kind: Kind, out: &mut [u8]) -> usize
    requires { length (kind_bytes kind (plan_lent held.lent)) ≤ length out.old }
    ensures { Puts (kind_bytes kind (plan_lent held.entry.lent)) out.old result out.new }
{
    let mut at: usize = 0;
    for slot in 0..slots(kind) {
        put_slot(held, kind, slot, &mut out[at..]);
        at += slot_size(held, kind, slot);
    }
    at
}
