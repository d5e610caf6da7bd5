// Whether Linux's taprio may refuse a list: it takes no entry that is shorter than 60 bytes at the link's speed.
use numbers::port::window;
use planner::Planner;
use streams::complain;

// The shortest entry in bits, times 1,000: one Mbit/s carries one bit in 1,000 ns.
const SHORTEST_ENTRY: u64 = 480_000;

// The lowest of some numbers that is not 0.
fn lowest(numbers: &[u64]) -> Option<u64> {
    numbers.iter().copied().filter(|n| *n != 0).min()
}

// The rate of the slowest port, if there is one.
fn slowest(rates: &[u32]) -> Option<u32> {
    rates.iter().copied().filter(|rate| *rate != 0).min()
}

// Whether an entry is too short at this rate: rate times interval is below the shortest.
fn too_short(interval: u64, rate: u32) -> bool {
    rate != 0 && interval <= (SHORTEST_ENTRY - 1) / u64::from(rate)
}

// Of the list of this duration: a guard band or the window is its shortest interval.
pub(crate) fn warn(rt: HostRuntime, planner: Planner, duration: u64) {
    let Some(rate) = slowest(&planner.rates) else {
        return;
    };
    let guard = planner.guard;
    let interval = lowest(&[guard as u64, window(guard, duration)]).unwrap_or(0);
    if too_short(interval, rate) {
        complain(
            &rt,
            format_args!(
                "warning: an interval of {interval} ns is shorter than 60 bytes at {rate} Mbit/s, which taprio refuses"
            ),
        );
    }
}
