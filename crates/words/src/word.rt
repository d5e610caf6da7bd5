// The words of a line.
ghost use Rattle.std.specs.Prelude.{◌≡◌};
ghost use Rattle.words.specs.Words.{same_bytes};
ghost use Rattle.words.specs.Sizes.{WordAt};

use crate::runs::{blank_end, word_end};

// Where a word stands; it begins and ends at the line's end where there is none.
#[derive(Clone, Copy)]
pub struct Word {
    pub start: usize,
    pub end: usize,
}

// The first word from a position on.
pub fn word_at(line: &[u8], at: usize) -> Word
    ensures { WordAt line.now at result.start result.end }
{
    let start = blank_end(line, at);
    let end = word_end(line, start);
    Word { start, end }
}

// Whether a text is a word.
#[tactic(auto, using(crate::specs::laws::Words::same_pointwise))]
pub fn same(text: &[u8], word: &[u8]) -> bool
    ensures { result ≡ same_bytes text.now word.now }
{
    text == word
}
