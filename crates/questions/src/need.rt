// The duration that a port needs for its demand, and the most that a port needs.
ghost use Rattle.std.specs.Prelude.{◌≡◌, ℕ, ◌≤◌, ◌<◌, length, get_or};
ghost use Rattle.cqf.specs.Limits.{port_slots};
ghost use Rattle.cqf.specs.Need.{need_by};
ghost use Rattle.cqf.specs.Overflow.{most_demand};
ghost use Rattle.questions.specs.PortSearch.{need_in, NeedsMost};

use super::failing::workload;
use tables::{Lent, PORTS};

// The least duration in which a port can send these bits outside the guard bands; 0 where there are none. A port with a demand
// has a rate.
pub(crate) fn need(guard: u32, rate: u32, blocking: u16, extra: u8, bits: u64) -> u64
    requires { (bits ≤ most_demand) × (0 < bits → 0 < rate) }
    ensures { result ≡ need_by guard rate blocking extra bits }
{
    if bits == 0 {
        return 0;
    }
    let speed = rate as u64;
    let work = workload(blocking, extra, bits);
    2 * (guard as u64) + (work + (speed - 1)) / speed
}

// The port in this slot needs so much, and none needs more.
#[derive(Clone, Copy)]
pub(crate) struct MostNeed {
    pub(crate) slot: usize,
    pub(crate) needed: u64,
}

// The port that needs most for its demand, whichever of several it is.
pub(crate) fn neediest(lent: Lent, demands: &[u64]) -> MostNeed
    requires demands_len { length demands.now ≡ port_slots }
    requires by_index { (q : ℕ) → q < port_slots → (get_or demands.now q 0 ≤ most_demand)
        × (0 < get_or demands.now q 0 → 0 < get_or lent.rates.now q 0) }
    ensures { NeedsMost (need_in lent.entry.guard lent.entry.rates.now lent.entry.blockings.now lent.entry.extras.now demands.now) result.slot result.needed }
{
    let mut most: u64 = 0;
    let mut at: usize = 0;
    for q in 0..PORTS {
        let needed = need(
            lent.guard,
            lent.rates[q],
            lent.blockings[q],
            lent.extras[q],
            demands[q],
        );
        if most < needed {
            most = needed;
            at = q;
        }
    }
    MostNeed {
        slot: at,
        needed: most,
    }
}
