// A search, whatever its goal.
ghost use Rattle.std.specs.Prelude.{◌≡◌, length};
ghost use Rattle.cqf.specs.Limits.{port_slots};
ghost use Rattle.tables.specs.Lent.{plan_lent};
ghost use Rattle.questions.specs.Answer.{search_of};
ghost use Rattle.questions.specs.Search.{Answers, SearchEnds, wanted, none_number};

use super::failing::failing_at;
use super::seek::{Goal, seek};
use tables::{Held, Lent, PORTS, hold};

#[derive(Clone, Copy)]
pub enum SearchRefusal {
    NoPlan,
    ShortScratch,
    Failing { port: u32, count: u32 },
}

// The answer over 64 numbers, which are left with the demands at the duration found, or at top where there is none.
fn answer(goal: Goal, held: Held, out: &mut [u64]) -> Result<u64, SearchRefusal>
    requires { length out.old ≡ port_slots }
    ensures { Answers (none_number goal) (wanted goal) (plan_lent held.entry.lent)
        (search_of (none_number goal) result) out.new }
{
    let found = seek(goal, held, out);
    let limit = held.lent.top as u64;
    if limit < found {
        let ports = failing_at(&held, limit, out);
        return Err(SearchRefusal::Failing {
            port: ports.port,
            count: ports.count,
        });
    }
    Ok(found)
}

// A search over the first 64 numbers of a scratch.
pub fn search_tables(goal: Goal, lent: Lent, scratch: &mut [u64]) -> Result<u64, SearchRefusal>
    ensures { SearchEnds (none_number goal) (wanted goal) (plan_lent lent.entry)
        scratch.old (search_of (none_number goal) result) scratch.new }
{
    let Some(held) = hold(lent) else {
        return Err(SearchRefusal::NoPlan);
    };
    let size = scratch.len();
    if size < PORTS {
        return Err(SearchRefusal::ShortScratch);
    }
    answer(goal, held, &mut scratch[..PORTS])
}
