// The plain question: is a duration admissible?
ghost use Rattle.std.specs.Prelude.{◌≡◌};
ghost use Rattle.tables.specs.Lent.{plan_lent};
ghost use Rattle.questions.specs.Answer.{check_of};
ghost use Rattle.questions.specs.Outcome.{check_answer};

use super::failing::failing_at;
use numbers::limits::between;
use tables::{Lent, PORTS, hold};

#[derive(Clone, Copy)]
pub enum CheckRefusal {
    NoPlan,
    BadDuration,
    Failing { port: u32, count: u32 },
}

// Is this duration admissible?
pub fn check_tables(lent: Lent, duration: u64) -> Result<(), CheckRefusal>
    ensures { check_of result ≡ check_answer (plan_lent lent.entry) duration }
{
    let Some(held) = hold(lent) else {
        return Err(CheckRefusal::NoPlan);
    };
    if !between(1, held.lent.top as u64, duration) {
        return Err(CheckRefusal::BadDuration);
    }
    let mut out = [0u64; PORTS];
    let ports = failing_at(&held, duration, &mut out);
    if ports.count != 0 {
        return Err(CheckRefusal::Failing {
            port: ports.port,
            count: ports.count,
        });
    }
    Ok(())
}
