// Which ports fail at a duration, from each port's demand.
ghost use Rattle.std.specs.Prelude.{◌≡◌, ℕ, ◌≤◌, ◌<◌, length};
ghost use Rattle.cqf.specs.Limits.{port_slots, max_top};
ghost use Rattle.cqf.specs.Port.{workload_of, fails_by_of};
ghost use Rattle.cqf.specs.Overflow.{most_demand};
ghost use Rattle.cqf.specs.Condition.{demand, failing, lowest_failing};
ghost use Rattle.tables.specs.Lent.{plan_lent};
ghost use Rattle.questions.specs.Failing.{FailingAt};

use super::demand::demands;
use numbers::frame::blocking_bits;
use numbers::port::{FailingPorts, failing_ports, window};
use tables::{Held, Lent, PORTS};

// One Mbit/s carries one bit in 1,000 ns.
const NS_PER_BIT: u64 = 1_000;

// What a port must be able to send, in thousandths of a bit. This and the like take a port's numbers one by one, as their definitions do:
// a struct of them would be made and taken apart at each call.
pub(crate) fn workload(blocking: u16, extra: u8, bits: u64) -> u64
    requires { bits ≤ most_demand }
    ensures { result ≡ workload_of blocking extra bits }
{
    NS_PER_BIT * (bits + blocking_bits(blocking, extra))
}

// The same of any demand, in 128 bits.
fn wide_workload(blocker: u16, extra: u8, bits: u64) -> u128
    ensures { result ≡ workload_of blocker extra bits }
{
    u128::from(NS_PER_BIT) * (u128::from(bits) + u128::from(blocking_bits(blocker, extra)))
}

// Whether a port fails, whatever its numbers; a demand of 0 is that of a port that no flow crosses.
pub fn port_fails(rate: u32, blocking: u16, extra: u8, window: u64, bits: u64) -> bool
    ensures { result ≡ fails_by_of rate blocking extra window bits }
{
    let capacity = u128::from(rate) * u128::from(window);
    bits != 0 && capacity < wide_workload(blocking, extra, bits)
}

// The same of the numbers of a plan that is held, whose ranges it leans on.
pub(crate) fn held_fails(rate: u32, blocking: u16, extra: u8, window: u64, bits: u64) -> bool
    requires { (window ≤ max_top) × (bits ≤ most_demand) }
    ensures { result ≡ fails_by_of rate blocking extra window bits }
{
    bits != 0 && (rate as u64) * window < workload(blocking, extra, bits)
}

// The ports that fail at a duration, by each port's demand there: the lowest, and how many.
pub(crate) fn failing_by<F: Fn(usize) -> u64>(
    held: Held,
    duration: u64,
    demand_of: F,
) -> FailingPorts
    requires range { (1 ≤ duration) × (duration ≤ held.lent.top) }
    requires callable { (q : ℕ) → q < port_slots → F.pre demand_of q }
    requires demands { (q bits : ℕ) → q < port_slots → F.post demand_of q bits → bits ≡ demand (plan_lent held.lent) q duration }
    ensures { (result.port ≡ lowest_failing (plan_lent held.entry.lent) duration)
        × (result.count ≡ failing (plan_lent held.entry.lent) duration) }
{
    let lent = held.lent;
    let available = window(lent.guard, duration);
    let mut set: u64 = 0;
    for q in 0..PORTS {
        let bits = demand_of(q);
        if held_fails(
            lent.rates[q],
            lent.blockings[q],
            lent.extras[q],
            available,
            bits,
        ) {
            set |= 1u64 << q;
        }
    }
    failing_ports(set)
}

// Those ports by a table of the demands, which is left in out. The tables by reference: a copy for this call takes stack in each caller.
pub(crate) fn failing_at(held: &Held, duration: u64, out: &mut [u64]) -> FailingPorts
    requires { (1 ≤ duration) × (duration ≤ held.now.lent.top) × (length out.old ≡ port_slots) }
    ensures { FailingAt (plan_lent held.now.lent) duration result.port result.count out.new }
{
    demands(*held, duration, out);
    let table = &out[..];
    failing_by(*held, duration, |q| table[q])
}
