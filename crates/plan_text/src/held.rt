// A text read into a planner.
ghost use Rattle.std.specs.Prelude.{◌≡◌};
ghost use Rattle.cqf.specs.Form.{form_number};
ghost use Rattle.plan_text.specs.Line.{form_by};
ghost use Rattle.plan_text.specs.Outcome.{TextReads};
ghost use Rattle.plan_text.specs.Drafting.{HoldsDraft};

use crate::draft::{Draft, blank};
use crate::reading::read_lines;
use crate::refusal::TextRefusal;
use crate::text::TextPlan;
use numbers::clock::Clock;
use tables::{Planner, empty};

// The planner is empty where the text is refused.
#[derive(Clone, Copy)]
pub struct TextOutcome {
    pub planner: Planner,
    pub answer: Result<TextPlan, TextRefusal>,
}

// The number of the form.
fn form_number(newer: bool) -> u32
    ensures { result ≡ form_number (form_by newer) }
{
    if newer { 1 } else { 0 }
}

// The planner of a draft, in the form that the text asks for.
fn planner_of(newer: bool, draft: &Draft) -> Planner
    ensures { HoldsDraft newer draft.now result }
{
    Planner {
        form: form_number(newer),
        guard: draft.guard.unwrap_or(0),
        top: draft.top.unwrap_or(0),
        clock: draft.clock.unwrap_or(Clock {
            drift: 0,
            timing_jitter: 0,
            sync_error: 0,
        }),
        ..draft.tables
    }
}

// The plan that a text says, or where and why the text is refused.
pub fn read_text(text: &[u8]) -> TextOutcome
    ensures { TextReads text.now result }
{
    let mut draft = blank();
    let answer = read_lines(text, &mut draft);
    let planner = match answer {
        Ok(plan) => planner_of(plan.newer, &draft),
        Err(_) => empty(),
    };
    TextOutcome { planner, answer }
}
