// A plan and the duration that is asked of it, with what the planner answers.
ghost use Rattle.std.specs.Prelude.{◌<◌};

use crate::capacity::Port;
use emissions::{Burst, Unsent, burst_tables, unsent_tables};
use planner::{Planner, SpanRecord};
use tables::{FLOWS, PORTS};

#[derive(Clone, Copy)]
pub(crate) struct Asked<'a> {
    pub planner: &'a Planner,
    pub duration: u64,
}

// A flow's number and contract.
#[derive(Clone, Copy)]
pub(crate) struct Flow {
    pub number: u64,
    pub period: u32,
    pub count: u16,
    pub length: u16,
    pub jitter: u32,
}

impl Asked<'_> {
    // The port in this slot, and the flow.
    pub(crate) fn port(self, q: usize) -> Port
        requires { q < 64 }
    {
        Port {
            number: (q as u64) + 1,
            rate: self.planner.rates[q],
            blocking: self.planner.blockings[q],
            extra: self.planner.extras[q],
        }
    }

    pub(crate) fn flow(self, f: usize) -> Flow
        requires { f < 256 }
    {
        Flow {
            number: (f as u64) + 1,
            period: self.planner.periods[f],
            count: self.planner.counts[f],
            length: self.planner.lengths[f],
            jitter: self.planner.jitters[f],
        }
    }

    // The bits that a port can send.
    pub(crate) fn sendable(self, port: Port) -> u64 {
        port.sendable(self.planner.guard, self.duration)
    }

    // By how many ns the duration is short of a port's need for so many bits.
    pub(crate) fn short_of(self, port: Port, bits: u64) -> u64 {
        port.short_of(self.planner.guard, self.duration, bits)
    }

    pub(crate) fn slack(self, port: Port) -> Option<i64> {
        planner::slack(*self.planner, port.number, self.duration).ok()
    }

    // The first span that ends at the duration or later.
    pub(crate) fn span(self) -> Option<SpanRecord> {
        planner::span(*self.planner, self.duration).ok()
    }

    // The first frame that the bad emission of the lowest failing port leaves unsent.
    pub(crate) fn unsent(self) -> Option<Unsent> {
        unsent_tables(self.planner.lend(), self.duration)
            .ok()
            .flatten()
    }

    // A flow's part in the bad emission of a port, with the instant of its frame k.
    pub(crate) fn burst(self, port: u64, flow: u64, k: u64) -> Option<Burst> {
        burst_tables(self.planner.lend(), self.duration, port, flow, k).ok()
    }

    // The frames of that part, 0 where there is none.
    pub(crate) fn frames(self, port: u64, flow: u64) -> u64 {
        self.burst(port, flow, 0).map_or(0, |burst| burst.frames)
    }

    // The instant of a frame that there is.
    pub(crate) fn instant(self, port: u64, flow: u64, k: u64) -> u64 {
        let burst = self.burst(port, flow, k);
        burst.and_then(|burst| burst.instant).unwrap_or(0)
    }
}
