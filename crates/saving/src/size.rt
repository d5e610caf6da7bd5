// How many bytes the fields of a plan are.
ghost use Rattle.std.specs.Prelude.{◌≡◌, cond, ◌+◌, ◌*◌, ◌≤◌, ◌<◌, ltb, get_or};
ghost use Rattle.cqf.specs.Limits.{port_slots, flow_slots};
ghost use Rattle.cqf.specs.Plan.{rate_of, period_of, hops_of};
ghost use Rattle.plan.specs.Bytes.{head_size};
ghost use Rattle.tables.specs.Lent.{plan_lent};
ghost use Rattle.saving.specs.declared.kind.Kind.{Kind};
ghost use Rattle.saving.specs.Slots.{slots_of, most_numbers, slot_size, kind_size};

use crate::clock::clocks_size;
use crate::kind::{Kind, slots};
use plan::layout::{
    EXTRA_SIZE, FLOW_SIZE, FLOW2_SIZE, HEAD_SIZE, HEADER_SIZE, HEADER2_SIZE, HOP_SIZE, JITTER_SIZE,
    PORT_SIZE, PORT2_SIZE,
};
use tables::Held;

// A field that stands where a number is not 0, with a value of this length.
fn field_size(n: u32, value: usize) -> usize
    requires { value < 65536 }
    ensures { result ≡ cond (ltb 0 n) (head_size + value) 0 }
{
    if n == 0 { 0 } else { HEAD_SIZE + value }
}

// A port's field with a value of this length.
fn port_size(held: Held, slot: usize, value: usize) -> usize
    requires { (slot < port_slots) × (value < 65536) }
    ensures { result ≡ cond (ltb 0 (rate_of (plan_lent held.entry.lent) slot)) (head_size + value) 0 }
{
    field_size(held.lent.rates[slot], value)
}

// A flow's field, its numbers being so many bytes.
fn flow_size(held: Held, slot: usize, numbers: usize) -> usize
    requires { (slot < flow_slots) × (numbers ≤ most_numbers) }
    ensures { result ≡ cond (ltb 0 (period_of (plan_lent held.entry.lent) slot)) (head_size + (numbers + 2 * hops_of (plan_lent held.entry.lent) slot)) 0 }
{
    let hops = usize::from(held.lent.hops[slot]);
    field_size(held.lent.periods[slot], numbers + HOP_SIZE * hops)
}

fn extra_size(held: Held, slot: usize) -> usize
    requires { slot < port_slots }
    ensures { result ≡ slot_size Kind.Extra (plan_lent held.entry.lent) slot }
{
    field_size(u32::from(held.lent.extras[slot]), EXTRA_SIZE)
}

fn jitter_size(held: Held, slot: usize) -> usize
    requires { slot < flow_slots }
    ensures { result ≡ slot_size Kind.Jitter (plan_lent held.entry.lent) slot }
{
    field_size(held.lent.jitters[slot], JITTER_SIZE)
}

// The field of this kind in a slot; 0 where there is none.
pub(crate) fn slot_size(held: Held, kind: Kind, slot: usize) -> usize
    requires { slot < slots_of kind }
    ensures { result ≡ slot_size kind (plan_lent held.entry.lent) slot }
{
    match kind {
        Kind::Header => HEAD_SIZE + HEADER_SIZE,
        Kind::Port => port_size(held, slot, PORT_SIZE),
        Kind::Flow => flow_size(held, slot, FLOW_SIZE),
        Kind::Extra => extra_size(held, slot),
        Kind::Jitter => jitter_size(held, slot),
        Kind::Clock => clocks_size(held.lent),
        Kind::Header2 => HEAD_SIZE + HEADER2_SIZE,
        Kind::Port2 => port_size(held, slot, PORT2_SIZE),
        Kind::Flow2 => flow_size(held, slot, FLOW2_SIZE),
    }
}

// The fields of this kind in all slots.
pub(crate) fn slots_size(held: Held, kind: Kind) -> usize
    ensures { result ≡ kind_size kind (plan_lent held.entry.lent) }
{
    let mut size: usize = 0;
    for slot in 0..slots(kind) {
        size += slot_size(held, kind, slot);
    }
    size
}
