// What a port must send in a cycle, what it can, and how long a cycle it needs for that.
use crate::bits::{NS_PER_BIT, narrow, product, quotient_up, thousandfold};
use numbers::frame::blocking_bits;
use numbers::port::window;

// A port's numbers.
#[derive(Clone, Copy)]
pub(crate) struct Port {
    pub number: u64,
    pub rate: u32,
    pub blocking: u16,
    pub extra: u8,
}

impl Port {
    // The bits that it can send behind the longest frame of another class.
    pub(crate) fn sendable(self, guard: u32, duration: u64) -> u64 {
        let available = narrow(window(guard, duration));
        let bits = product(self.rate, available) / NS_PER_BIT;
        bits.saturating_sub(blocking_bits(self.blocking, self.extra))
    }

    // Its need for so many bits less the duration. No sum comes near 2^64.
    pub(crate) fn short_of(self, guard: u32, duration: u64, bits: u64) -> u64 {
        let all = bits.wrapping_add(blocking_bits(self.blocking, self.extra));
        let open = quotient_up(thousandfold(all), u64::from(self.rate));
        let closed = 2 * u64::from(guard);
        closed.wrapping_add(open).saturating_sub(duration)
    }
}
