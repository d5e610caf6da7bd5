// Products and quotients of numbers that are only printed.

const BEYOND_32_BITS: u64 = 4_294_967_296;

const BEYOND_50_BITS: u64 = 1_125_899_906_842_624;

// One Mbit/s carries one bit in 1,000 ns.
pub(crate) const NS_PER_BIT: u64 = 1_000;

pub(crate) fn product(a: u32, b: u32) -> u64 {
    u64::from(a) * u64::from(b)
}

// Of a number below 2^32: the frames that a flow brings are at most 64 in each of some 112,000 periods, and a window is at most top.
pub(crate) fn narrow(n: u64) -> u32 {
    (n % BEYOND_32_BITS) as u32
}

// Of bits below 2^50: a port's demand is at most 256 shares of less than 2^37.
pub(crate) fn thousandfold(bits: u64) -> u64 {
    (bits % BEYOND_50_BITS) * NS_PER_BIT
}

// A quotient rounded up; 0 of a division by 0.
pub(crate) fn quotient_up(n: u64, by: u64) -> u64 {
    if by == 0 { 0 } else { n.div_ceil(by) }
}
