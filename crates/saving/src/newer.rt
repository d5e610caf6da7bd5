// The field of each kind that the newer form has for one slot, if there is one.
ghost use Rattle.std.specs.Prelude.{◌≡◌, ◌<◌};
ghost use Rattle.cqf.specs.Limits.{port_slots, flow_slots};
ghost use Rattle.tables.specs.Lent.{plan_lent};
ghost use Rattle.writing.specs.Laid.{laid};
ghost use Rattle.saving.specs.declared.kind.Kind.{Kind};
ghost use Rattle.saving.specs.Slots.{slot_bytes};

use tables::Held;
use writing::flow::put_flow2;
use writing::newer::put_port2;

pub(crate) fn put_port2_slot(held: Held, slot: usize, out: &mut [u8])
    requires { slot < port_slots }
    ensures { out.new ≡ laid (slot_bytes Kind.Port2 (plan_lent held.entry.lent) slot) out.old }
{
    let lent = held.lent;
    let rate = lent.rates[slot];
    if rate == 0 {
        return;
    }
    let blocking = lent.blockings[slot];
    let extra = u16::from(lent.extras[slot]);
    put_port2(out, (slot + 1) as u16, rate, blocking, extra);
}

pub(crate) fn put_flow2_slot(held: Held, slot: usize, out: &mut [u8])
    requires { slot < flow_slots }
    ensures { out.new ≡ laid (slot_bytes Kind.Flow2 (plan_lent held.entry.lent) slot) out.old }
{
    let lent = held.lent;
    let period = lent.periods[slot];
    let jitter = lent.jitters[slot];
    if period == 0 {
        return;
    }
    put_flow2(
        out,
        (slot + 1) as u16,
        period,
        lent.counts[slot],
        lent.lengths[slot],
        jitter,
        held.route(slot),
    );
}
