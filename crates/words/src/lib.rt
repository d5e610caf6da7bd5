// A text as lines, a line as words, a word as a number.
#![tactic(auto)]

pub mod digits; // digits.rt: a number written in decimal digits
pub mod runs; // runs.rt: how far bytes of a kind reach
pub mod lines; // lines.rt: a line, and where the next one begins
pub mod word; // word.rt: the next word of a line, and whether a text is a word
