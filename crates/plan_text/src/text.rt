// The end of a text: what is missing, then ports that are not in the plan.
ghost use Rattle.plan_text.specs.Drafting.{draft_of, HopsWithin, ClosesAs};

use crate::absent::first_absent;
use crate::draft::Draft;
use crate::grammar::{Fault, Item};
use crate::refusal::{TextRefusal, at_line, refused};

// A text has at most so many bytes.
pub const MAX_TEXT: usize = 65_536;

// A text that says a plan: whether it asks for the newer form. A flag here, and where lines are read: this crate knows no plan's `Form`.
#[derive(Clone, Copy, Debug, PartialEq, Eq)]
pub struct TextPlan {
    pub newer: bool,
}

// All lines are read; the line after the last has this number.
pub(crate) fn close(draft: &Draft, number: u32) -> Result<TextPlan, TextRefusal>
    requires { HopsWithin draft.now.tables.hops }
    ensures { ClosesAs (draft_of draft.now) number result }
{
    if draft.guard.is_none() {
        return Err(at_line(number, refused(Fault::Incomplete, Item::Guard)));
    }
    if draft.top.is_none() {
        return Err(at_line(number, refused(Fault::Incomplete, Item::Top)));
    }
    if !draft.flowing {
        return Err(at_line(number, refused(Fault::Incomplete, Item::Flow)));
    }
    if let Some(absent) = first_absent(draft) {
        return Err(TextRefusal {
            line: absent.line,
            fault: Fault::Absent,
            item: Item::Route,
            value: absent.named as u64,
        });
    }
    Ok(TextPlan { newer: draft.newer })
}
