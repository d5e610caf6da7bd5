// The fixed-point iteration for the least duration from a start on, by the most that a port needs.
ghost use Rattle.std.specs.Prelude.{◌≡◌, ◌≤◌, length};
ghost use Rattle.cqf.specs.Limits.{port_slots};
ghost use Rattle.cqf.specs.FixedPoint.{none, iterate};
ghost use Rattle.tables.specs.Lent.{plan_lent};
ghost use Rattle.questions.specs.Answer.{fixed_point_of, fixed_point_refused};
ghost use Rattle.questions.specs.FixedPoint.{outcome_answer, fixed_point_answer};

use super::demand::demands;
use super::failing::{failing_at, held_fails};
use super::need::neediest;
use numbers::limits::between;
use numbers::port::window;
use tables::{Held, Lent, PORTS, hold};

// A duration found, and the steps that it took.
#[derive(Clone, Copy)]
pub struct FixedPoint {
    pub duration: u64,
    pub steps: u64,
}

#[derive(Clone, Copy)]
pub enum FixedPointRefusal {
    NoPlan,
    BadStart,
    Failing { port: u32, count: u32, steps: u64 },
    Unfinished { duration: u64, steps: u64 },
}

// There is no duration up to top, as so many steps have shown: the ports that fail at top.
fn none_found(held: Held, steps: u64, out: &mut [u64]) -> FixedPointRefusal
    requires { length out.old ≡ port_slots }
    ensures { fixed_point_refused result ≡ outcome_answer (plan_lent held.entry.lent) steps (none steps) }
{
    let ports = failing_at(&held, held.lent.top as u64, out);
    FixedPointRefusal::Failing {
        port: ports.port,
        count: ports.count,
        steps,
    }
}

// At most so many steps. Where no port fails at t, it is found; otherwise the next step is at the most that a port needs at t.
fn iterate(held: Held, start: u64, steps: u64) -> Result<FixedPoint, FixedPointRefusal>
    requires { (1 ≤ start) × (start ≤ held.lent.top) }
    ensures { fixed_point_of result ≡ outcome_answer (plan_lent held.entry.lent) steps (iterate (plan_lent held.entry.lent) start steps) }
{
    let lent = held.lent;
    let limit = lent.top as u64;
    let mut out = [0u64; PORTS];
    let mut used: u64 = 0;
    let mut t = start;
    let duration = loop {
        if steps <= used {
            return Err(FixedPointRefusal::Unfinished { duration: t, steps });
        }
        used += 1;
        demands(held, t, &mut out);
        let available = window(lent.guard, t);
        let mut passes = true;
        'ports: for q in 0..PORTS {
            if held_fails(
                lent.rates[q],
                lent.blockings[q],
                lent.extras[q],
                available,
                out[q],
            ) {
                passes = false;
                break 'ports;
            }
        }
        if passes {
            break t;
        }
        let worst = neediest(lent, &out);
        let next = worst.needed;
        if limit < next {
            let refusal = none_found(held, used, &mut out);
            return Err(refusal);
        }
        t = next;
    };
    Ok(FixedPoint {
        duration,
        steps: used,
    })
}

// The least admissible duration from a start on, by at most so many steps; 26 where they end before.
pub fn fixed_point_tables(
    lent: Lent,
    start: u64,
    steps: u64,
) -> Result<FixedPoint, FixedPointRefusal>
    ensures { fixed_point_of result ≡ fixed_point_answer (plan_lent lent.entry) start steps }
{
    let Some(held) = hold(lent) else {
        return Err(FixedPointRefusal::NoPlan);
    };
    if !between(1, held.lent.top as u64, start) {
        return Err(FixedPointRefusal::BadStart);
    }
    iterate(held, start, steps)
}
