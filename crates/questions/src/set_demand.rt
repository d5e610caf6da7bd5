// The demand of a port from the set of the flows that cross it, and what it needs for it.
ghost use Rattle.std.specs.Prelude.{◌≡◌, ◌+◌, ◌≤◌, ◌<◌, get_or};
ghost use Rattle.cqf.specs.Limits.{port_slots, flow_slots, max_extra};
ghost use Rattle.cqf.specs.Overflow.{most_widened};
ghost use Rattle.cqf.specs.Widened.{widened_by};
ghost use Rattle.cqf.specs.Need.{need_by};
ghost use Rattle.numbers.specs.Clock.{clock_of};
ghost use Rattle.questions.specs.FlowSet.{word_slots, flow_bits, word_bits, set_bits, Countable, WordCountable, SetCountable};

use super::flow_set::FlowSet;
use super::need::need;
use super::port_demand::held_bits;
use numbers::clock::widened;
use tables::Lent;

// What the flow in slot f brings to a port.
#[inline(always)]
fn bits_at(lent: Lent, extra: u8, over: u32, f: usize) -> u64
    requires { Countable lent.periods.now lent.counts.now lent.lengths.now lent.jitters.now f × (f < flow_slots) × (extra ≤ max_extra) × (over ≤ most_widened) }
    ensures { result ≡ flow_bits lent.entry.periods.now lent.entry.counts.now lent.entry.lengths.now lent.entry.jitters.now extra over f }
{
    held_bits(
        lent.periods[f],
        lent.counts[f],
        lent.lengths[f],
        lent.jitters[f],
        extra,
        over,
    )
}

// What the flows of one number of a set bring: from one 1 to the next, which is no count of an index.
#[inline(always)]
fn word_bits(lent: Lent, extra: u8, over: u32, word: u64, base: usize) -> u64
    requires word_countable { WordCountable lent.periods.now lent.counts.now lent.lengths.now lent.jitters.now word base }
    requires word_slots_bound { (base + word_slots ≤ flow_slots) × (extra ≤ max_extra) × (over ≤ most_widened) }
    ensures { result ≡ word_bits (flow_bits lent.entry.periods.now lent.entry.counts.now lent.entry.lengths.now lent.entry.jitters.now extra over) word base }
{
    let mut bits: u64 = 0;
    let mut rest = word;
    let mut i: usize = 0;
    while rest != 0 {
        let skip = u64::trailing_zeros(rest);
        let at = i + skip as usize;
        bits += bits_at(lent, extra, over, base + at);
        rest = (rest >> skip) / 2;
        i = at + 1;
    }
    bits
}

// What the flows of a set bring at a duration.
#[inline(always)]
fn set_demand(lent: Lent, extra: u8, set: FlowSet, duration: u64) -> u64
    requires set_countable { SetCountable lent.periods.now lent.counts.now lent.lengths.now lent.jitters.now set }
    requires extra_le_max_extra { (extra ≤ max_extra) × (widened_by (clock_of lent.clock) duration ≤ most_widened) }
    ensures { result ≡ set_bits (flow_bits lent.entry.periods.now lent.entry.counts.now lent.entry.lengths.now lent.entry.jitters.now extra (widened_by (clock_of lent.entry.clock) duration)) set }
{
    let at = duration as u32;
    let over = widened(lent.clock, at) as u32;
    let first = word_bits(lent, extra, over, set.first, 0);
    let second = word_bits(lent, extra, over, set.second, 64);
    let third = word_bits(lent, extra, over, set.third, 128);
    let fourth = word_bits(lent, extra, over, set.fourth, 192);
    first + second + third + fourth
}

// What the port in slot q needs for the demand of its flows at a duration.
#[inline(always)]
pub(crate) fn set_need(lent: Lent, q: usize, set: FlowSet, duration: u64) -> u64
    requires set_countable { SetCountable lent.periods.now lent.counts.now lent.lengths.now lent.jitters.now set }
    requires extra_le_max_extra { (q < port_slots) × (get_or lent.extras.now q 0 ≤ max_extra) × (widened_by (clock_of lent.clock) duration ≤ most_widened) }
    requires rate_nonzero { 0 < set_bits (flow_bits lent.periods.now lent.counts.now lent.lengths.now lent.jitters.now (get_or lent.extras.now q 0) (widened_by (clock_of lent.clock) duration)) set → 0 < get_or lent.rates.now q 0 }
    ensures { result ≡ need_by lent.entry.guard (get_or lent.entry.rates.now q 0) (get_or lent.entry.blockings.now q 0) (get_or lent.entry.extras.now q 0) (set_bits (flow_bits lent.entry.periods.now lent.entry.counts.now lent.entry.lengths.now lent.entry.jitters.now (get_or lent.entry.extras.now q 0) (widened_by (clock_of lent.entry.clock) duration)) set) }
{
    let extra = lent.extras[q];
    let bits = set_demand(lent, extra, set, duration);
    need(lent.guard, lent.rates[q], lent.blockings[q], extra, bits)
}
