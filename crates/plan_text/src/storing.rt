// A line that passed its tests, stored.
ghost use Rattle.std.specs.Prelude.{◌≡◌};
ghost use Rattle.plan_text.specs.Reading.{numbers_by};
ghost use Rattle.plan_text.specs.Text.{added};
ghost use Rattle.plan_text.specs.Drafting.{draft_of, Passed};

use crate::draft::Draft;
use crate::grammar::Kind;
use crate::store::{clock_of, slot_of, store_flow, store_port};

// The line stored.
pub(crate) fn store_line(kind: Kind, line: u32, numbers: &[u64], route: &[u64], draft: &mut Draft)
    requires { Passed draft.old.newer kind numbers.now route.now }
    ensures { draft_of draft.new ≡ added kind line (numbers_by kind numbers.now) route.now (draft_of draft.old) }
{
    if let Kind::Format = kind {
        draft.newer = true;
        return;
    }
    draft.begun = true;
    match kind {
        Kind::Guard => draft.guard = Some(numbers[0] as u32),
        Kind::Top => draft.top = Some(numbers[0] as u32),
        Kind::Port => store_port(numbers, &mut draft.tables),
        Kind::Flow => {
            draft.flowing = true;
            draft.lines[slot_of(numbers)] = line;
            store_flow(numbers, route, &mut draft.tables);
        }
        Kind::Clocks => draft.clock = Some(clock_of(numbers)),
        Kind::Format | Kind::Other => {}
    }
}
