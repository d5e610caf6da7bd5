// A search over a scratch of one number, whatever its goal.
ghost use Rattle.std.specs.Prelude.{◌≡◌};
ghost use Rattle.tables.specs.Lent.{plan_lent};
ghost use Rattle.questions.specs.Answer.{search_of};
ghost use Rattle.questions.specs.Search.{wanted, none_number};
ghost use Rattle.questions.specs.Lean.{LeanEnds};

use super::failing::failing_by;
use super::highest::highest_slot;
use super::lean_seek::lean_seek;
use super::port_demand::port_demand;
use super::search::SearchRefusal;
use super::seek::Goal;
use tables::{Lent, hold};

// A search over the first number of a scratch, which is left with the demand of the highest-numbered crossed port.
pub fn lean_tables(goal: Goal, lent: Lent, scratch: &mut [u64]) -> Result<u64, SearchRefusal>
    ensures { LeanEnds (none_number goal) (wanted goal) (plan_lent lent.entry)
        scratch.old (search_of (none_number goal) result) scratch.new }
{
    let Some(held) = hold(lent) else {
        return Err(SearchRefusal::NoPlan);
    };
    let size = scratch.len();
    if size == 0 {
        return Err(SearchRefusal::ShortScratch);
    }
    let found = lean_seek(goal, held);
    let limit = held.lent.top as u64;
    let at = found.min(limit);
    let q = highest_slot(held);
    scratch[0] = port_demand(held, at, q);
    if limit < found {
        let ports = failing_by(held, limit, |q| port_demand(held, limit, q));
        return Err(SearchRefusal::Failing {
            port: ports.port,
            count: ports.count,
        });
    }
    Ok(found)
}
