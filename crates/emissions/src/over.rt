// Which port leaves a frame unsent in a cycle of the bad emission.
ghost use Rattle.std.specs.Prelude.{◌≡◌, ℕ, ◌-◌, ◌/◌, ◌≤◌, ◌<◌, get_or, MatchOption};
ghost use Rattle.cqf.specs.Bounded.{lowest};
ghost use Rattle.cqf.specs.Limits.{port_slots, max_top};
ghost use Rattle.cqf.specs.Overflow.{most_demand};
ghost use Rattle.cqf.specs.Port.{ns_per_bit, capacity_of, workload_of, blocking_bits_of, fails_by_of};
ghost use Rattle.tables.specs.Lent.{plan_lent};
ghost use Rattle.questions.specs.Failing.{fails_in};
ghost use Rattle.emissions.specs.BadEmission.{latest_hop, burst_bits, unsent_at};

use crate::queued::cycle_bits;
use numbers::frame::blocking_bits;
use numbers::port::window;
use tables::{Held, Lent, PORTS};

// One Mbit/s carries one bit in 1,000 ns.
const NS_PER_BIT: u64 = 1_000;

// What a port must be able to send, in thousandths of a bit.
fn workload(blocking: u16, extra: u8, bits: u64) -> u64
    requires { bits ≤ most_demand }
    ensures { result ≡ workload_of blocking extra bits }
{
    NS_PER_BIT * (bits + blocking_bits(blocking, extra))
}

// Whether a port that must send these bits leaves a frame unsent; one that must send none does not.
// `questions::port_fails` takes any numbers, in 128 bits; these lean on ranges that their callers know, as `held_fails` does there.
fn port_overruns(rate: u32, blocking: u16, extra: u8, window: u64, bits: u64) -> bool
    requires { (window ≤ max_top) × (bits ≤ most_demand) }
    ensures { result ≡ fails_by_of rate blocking extra window bits }
{
    bits != 0 && u64::from(rate) * window < workload(blocking, extra, bits)
}

// The bits that a port can send in a window behind the longest frame of another class.
pub(crate) fn sendable(rate: u32, blocking: u16, extra: u8, window: u64) -> u64
    requires { window ≤ max_top }
    ensures { result ≡ capacity_of rate window / ns_per_bit - blocking_bits_of blocking extra }
{
    let bits = u64::from(rate) * window / NS_PER_BIT;
    bits.saturating_sub(blocking_bits(blocking, extra))
}

// The slot of the lowest port that leaves a frame unsent; one that must send none does not.
fn lowest_over(lent: Lent, window: u64, bits: &[u64; PORTS]) -> Option<usize>
    requires { (window ≤ max_top) × ((r : ℕ) → r < port_slots → get_or bits.now r 0 ≤ most_demand) }
    ensures { MatchOption result
        (lowest port_slots (fails_in lent.entry.rates.now lent.entry.blockings.now lent.entry.extras.now window bits.now) ≡ port_slots)
        (λ r. (r < port_slots)
        × (lowest port_slots (fails_in lent.entry.rates.now lent.entry.blockings.now lent.entry.extras.now window bits.now) ≡ r)) }
{
    for r in 0..PORTS {
        if port_overruns(
            lent.rates[r],
            lent.blockings[r],
            lent.extras[r],
            window,
            bits[r],
        ) {
            return Some(r);
        }
    }
    None
}

// The slot of the lowest port that leaves a frame unsent in a cycle, and the bits that it must send.
#[derive(Clone, Copy)]
pub(crate) struct Overrun {
    pub slot: usize,
    pub bits: u64,
}

// The tables by reference, since each copy of them takes stack where two of these functions call this one.
pub(crate) fn overrun_in(
    held: &Held,
    duration: u64,
    q: usize,
    latest: u64,
    c: u64,
) -> Option<Overrun>
    requires { (duration ≤ held.now.lent.top)
        × (q < port_slots)
        × (latest ≡ latest_hop (plan_lent held.now.lent) q) }
    ensures { MatchOption result
        (lowest port_slots (unsent_at (plan_lent held.now.lent) duration q c) ≡ port_slots)
        (λ over. (over.slot < port_slots)
        × (lowest port_slots (unsent_at (plan_lent held.now.lent) duration q c) ≡ over.slot)
        × (over.bits ≡ burst_bits (plan_lent held.now.lent) duration q c over.slot)) }
{
    let mut bits = [0u64; PORTS];
    cycle_bits(*held, duration, q, latest, c, &mut bits);
    let lent = held.lent;
    let available = window(lent.guard, duration);
    let slot = lowest_over(lent, available, &bits)?;
    Some(Overrun {
        slot,
        bits: bits[slot],
    })
}
