// The clocks' field, which is left out where the clocks are equal.
ghost use Rattle.std.specs.Prelude.{◌≡◌};
ghost use Rattle.cqf.specs.Plan.{clocks_equal};
ghost use Rattle.tables.specs.Lent.{plan_lent};
ghost use Rattle.writing.specs.Laid.{laid};
ghost use Rattle.saving.specs.declared.kind.Kind.{Kind};
ghost use Rattle.saving.specs.Slots.{slot_bytes, slot_size};

use plan::layout::{CLOCK_SIZE, HEAD_SIZE};
use tables::Lent;
use writing::field::put_clock;

// Whether all three numbers are 0.
fn clocks_equal(lent: Lent) -> bool
    ensures { result ≡ clocks_equal (plan_lent lent.entry) }
{
    let clock = lent.clock;
    clock.drift == 0 && clock.timing_jitter == 0 && clock.sync_error == 0
}

// How many bytes it is; 0 where it is left out.
pub(crate) fn clocks_size(lent: Lent) -> usize
    ensures { result ≡ slot_size Kind.Clock (plan_lent lent.entry) 0 }
{
    if clocks_equal(lent) {
        0
    } else {
        HEAD_SIZE + CLOCK_SIZE
    }
}

pub(crate) fn put_clocks(lent: Lent, out: &mut [u8])
    ensures { out.new ≡ laid (slot_bytes Kind.Clock (plan_lent lent.entry) 0) out.old }
{
    if !clocks_equal(lent) {
        put_clock(out, lent.clock);
    }
}
