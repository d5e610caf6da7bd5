// A line that was read, taken into the plan that is being read.
ghost use Rattle.std.specs.Prelude.{◌≤◌, ◌≡◌, length};
ghost use Rattle.cqf.specs.Limits.{max_hops};
ghost use Rattle.plan_text.specs.Reading.{numbers_by};
ghost use Rattle.plan_text.specs.Text.{taken, blank};
ghost use Rattle.plan_text.specs.Drafting.{draft_of, progress_of, Passed, StepsAs};

use crate::again::{first_number, is_again, item_of, repeats};
use crate::grammar::{Fault, Item, Kind};
use crate::refusal::{LineRefusal, refused};
use crate::says::read_line;
use crate::storing::store_line;
use numbers::clock::Clock;
use tables::{FLOWS, Planner, empty};

// For each flow the number of its line.
pub(crate) type Lines = [u32; FLOWS];

// What has been read: whether the newer form was asked for, and whether another line was read; the things that a text says once; whether
// a flow was said, and the columns of the tables.
#[derive(Clone, Copy)]
pub(crate) struct Draft {
    pub newer: bool,
    pub begun: bool,
    pub guard: Option<u32>,
    pub top: Option<u32>,
    pub clock: Option<Clock>,
    pub flowing: bool,
    pub tables: Planner,
    pub lines: Lines,
}

// Nothing has been read.
pub(crate) fn blank() -> Draft
    ensures { draft_of result ≡ blank }
{
    Draft {
        newer: false,
        begun: false,
        guard: None,
        top: None,
        clock: None,
        flowing: false,
        tables: empty(),
        lines: [0; FLOWS],
    }
}

// A line that passed its own tests: whether it says a thing again or a port twice; stored, if not.
fn take_line(
    kind: Kind,
    line: u32,
    numbers: &[u64],
    route: &[u64],
    draft: &mut Draft,
) -> Result<(), LineRefusal>
    requires { Passed draft.old.newer kind numbers.now route.now }
    ensures { progress_of result (draft_of draft.new) ≡ taken kind line (numbers_by kind numbers.now) route.now (draft_of draft.old) }
{
    if is_again(kind, numbers, draft) {
        return Err(LineRefusal {
            fault: Fault::Again,
            item: item_of(kind),
            value: first_number(kind, numbers),
        });
    }
    if repeats(route) {
        return Err(refused(Fault::Twice, Item::Route));
    }
    store_line(kind, line, numbers, route, draft);
    Ok(())
}

// A line of a text: read, tested and stored.
pub(crate) fn step(
    line: &[u8],
    number: u32,
    numbers: &mut [u64],
    route: &mut [u64],
    draft: &mut Draft,
) -> Result<(), LineRefusal>
    requires { (max_hops ≤ length numbers.old) × (max_hops ≤ length route.old) }
    ensures { StepsAs number (draft_of draft.old) line.now (progress_of result (draft_of draft.new)) }
{
    match read_line(draft.newer, draft.begun, line, numbers, route)? {
        None => Ok(()),
        Some(says) => take_line(says.kind, number, numbers, &route[..says.hops], draft),
    }
}
