// A whole text read: its lines from the front, then its end.
ghost use Rattle.std.specs.Prelude.{◌≡◌};
ghost use Rattle.plan_text.specs.Text.{blank, read_text};
ghost use Rattle.plan_text.specs.Drafting.{draft_of, progress_of, StepsAs, reading_of};

use crate::draft::{Draft, step};
use crate::grammar::{Fault, Item};
use crate::line::PLACES;
use crate::refusal::{LineRefusal, TextRefusal, at_line, refused};
use crate::text::{MAX_TEXT, TextPlan, close};
use words::lines::line_at;

// A line of a text, with places for its numbers and its ports.
fn line_step(line: &[u8], number: u32, draft: &mut Draft) -> Result<(), LineRefusal>
    ensures { StepsAs number (draft_of draft.old) line.now (progress_of result (draft_of draft.new)) }
{
    let mut numbers = [0; PLACES];
    let mut route = [0; PLACES];
    step(line, number, &mut numbers, &mut route, draft)
}

// A text read into a draft that is blank. The draft then holds the plan where there is one, and what was read of it where the text is
// refused.
pub(crate) fn read_lines(text: &[u8], draft: &mut Draft) -> Result<TextPlan, TextRefusal>
    requires { draft_of draft.old ≡ blank }
    ensures { reading_of result (draft_of draft.new).tables ≡ read_text text.now }
{
    if MAX_TEXT < text.len() {
        return Err(at_line(1, refused(Fault::Size, Item::First)));
    }
    let mut number: u32 = 1;
    let mut at: usize = 0;
    while at < text.len() {
        let line = line_at(text, at);
        if let Err(refusal) = line_step(&text[at..line.end], number, draft) {
            return Err(at_line(number, refusal));
        }
        number += 1;
        at = line.next;
    }
    close(draft, number)
}
