// The field of each kind that the older form has for one slot, if there is one.
ghost use Rattle.std.specs.Prelude.{◌≡◌, ◌<◌};
ghost use Rattle.cqf.specs.Limits.{port_slots, flow_slots};
ghost use Rattle.cqf.specs.Plan.{route_of};
ghost use Rattle.tables.specs.Lent.{plan_lent};
ghost use Rattle.writing.specs.Laid.{laid};
ghost use Rattle.saving.specs.declared.kind.Kind.{Kind};
ghost use Rattle.saving.specs.Slots.{slot_bytes};

use tables::Held;
use writing::field::{put_extra, put_jitter, put_port};
use writing::flow::put_flow;

pub(crate) fn put_port_slot(held: Held, slot: usize, out: &mut [u8])
    requires { slot < port_slots }
    ensures { out.new ≡ laid (slot_bytes Kind.Port (plan_lent held.entry.lent) slot) out.old }
{
    let lent = held.lent;
    let rate = lent.rates[slot];
    if rate == 0 {
        return;
    }
    put_port(out, (slot + 1) as u16, rate, lent.blockings[slot]);
}

pub(crate) fn put_flow_slot(held: Held, slot: usize, out: &mut [u8])
    requires { slot < flow_slots }
    ensures { out.new ≡ laid (slot_bytes Kind.Flow (plan_lent held.entry.lent) slot) out.old }
{
    let lent = held.lent;
    let period = lent.periods[slot];
    if period == 0 {
        return;
    }
    put_flow(
        out,
        (slot + 1) as u16,
        period,
        lent.counts[slot],
        lent.lengths[slot],
        held.route(slot),
    );
}

pub(crate) fn put_extra_slot(held: Held, slot: usize, out: &mut [u8])
    requires { slot < port_slots }
    ensures { out.new ≡ laid (slot_bytes Kind.Extra (plan_lent held.entry.lent) slot) out.old }
{
    let bytes = held.lent.extras[slot];
    if bytes == 0 {
        return;
    }
    put_extra(out, (slot + 1) as u16, u16::from(bytes));
}

pub(crate) fn put_jitter_slot(held: Held, slot: usize, out: &mut [u8])
    requires { slot < flow_slots }
    ensures { out.new ≡ laid (slot_bytes Kind.Jitter (plan_lent held.entry.lent) slot) out.old }
{
    let ns = held.lent.jitters[slot];
    if ns == 0 {
        return;
    }
    put_jitter(out, (slot + 1) as u16, ns);
}
