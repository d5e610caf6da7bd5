// The slack of a port at a duration.
ghost use Rattle.std.specs.Prelude.{◌≡◌, ◌≤◌};
ghost use Rattle.std.proofs.Math.IntN.{sub_ℕ};
ghost use Rattle.cqf.specs.Limits.{max_top};
ghost use Rattle.cqf.specs.Port.{capacity_of, workload_of};
ghost use Rattle.cqf.specs.Overflow.{most_demand};
ghost use Rattle.tables.specs.Lent.{plan_lent};
ghost use Rattle.questions.specs.Answer.{slack_of};
ghost use Rattle.questions.specs.Outcome.{slack_answer};

use super::failing::workload;
use super::port_demand::port_demand;
use numbers::limits::{MAX_PORT, between};
use numbers::port::window;
use tables::{Lent, hold};

#[derive(Clone, Copy)]
pub enum SlackRefusal {
    NoPlan,
    BadDuration,
    NotCrossed,
}

// The slack of a port, from two products: a signed number, exact at zero.
pub(crate) fn port_slack(rate: u32, blocking: u16, extra: u8, window: u64, bits: u64) -> i64
    requires { (window ≤ max_top) × (bits ≤ most_demand) }
    ensures { result ≡ sub_ℕ (capacity_of rate window) (workload_of blocking extra bits) }
{
    let capacity = (rate as u64) * window;
    let needed = workload(blocking, extra, bits);
    (capacity as i64) - (needed as i64)
}

// What is the slack of this port?
pub fn slack_tables(lent: Lent, port: u64, duration: u64) -> Result<i64, SlackRefusal>
    ensures { slack_of result ≡ slack_answer (plan_lent lent.entry) port duration }
{
    let Some(held) = hold(lent) else {
        return Err(SlackRefusal::NoPlan);
    };
    if !between(1, held.lent.top as u64, duration) {
        return Err(SlackRefusal::BadDuration);
    }
    if !between(1, MAX_PORT, port) {
        return Err(SlackRefusal::NotCrossed);
    }
    let q = (port - 1) as usize;
    let bits = port_demand(held, duration, q);
    if bits == 0 {
        Err(SlackRefusal::NotCrossed)
    } else {
        let available = window(held.lent.guard, duration);
        Ok(port_slack(
            held.lent.rates[q],
            held.lent.blockings[q],
            held.lent.extras[q],
            available,
            bits,
        ))
    }
}
