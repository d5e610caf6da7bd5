// The lines of a text.
ghost use Rattle.std.specs.Prelude.{◌≡◌, ◌+◌, drop};
ghost use Rattle.words.specs.Sizes.{said_size, LineAt};

use crate::runs::{CR, LF, line_end, plain_end};

// Where what the line at this position says ends: before its comment and its end.
pub fn said_end(text: &[u8], at: usize) -> usize
    ensures { result ≡ at + said_size (drop at text.now) }
{
    let stop = plain_end(text, at);
    if at < stop && stop < text.len() && text[stop] == LF && text[stop - 1] == CR {
        return stop - 1;
    }
    stop
}

// A line: where what it says ends, and where the next one begins.
#[derive(Clone, Copy)]
pub struct Line {
    pub end: usize,
    pub next: usize,
}

pub fn line_at(text: &[u8], at: usize) -> Line
    ensures { LineAt text.now at result.end result.next }
{
    let end = said_end(text, at);
    let stop = line_end(text, end);
    let next = if stop < text.len() { stop + 1 } else { stop };
    Line { end, next }
}
