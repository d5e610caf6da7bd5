// The arguments that a program is started with: words, and numbers in decimal digits. The program's own name is the one at 0.
#![tactic(auto)]

ghost use Rattle.std.specs.Prelude.{◌≤◌, length};

mod digits; // digits.rt: a number written in decimal digits
mod word; // word.rt: whether a text is a word

pub use digits::decimal;
use std::env::{Env, FillError};
pub use word::same;

// Of an argument that is looked at.
const LONGEST: usize = 4_096;

pub fn count(rt: &impl Env) -> usize {
    for i in 0..usize::MAX {
        if let Err(FillError::NotPresent) = rt.arg(i, &mut []) {
            return i;
        }
    }
    usize::MAX
}

// The argument in front of the text, and its length: 0 where it is missing, or longer than the text has room for.
fn argument(rt: &impl Env, i: usize, text: &mut [u8]) -> usize
    ensures { result ≤ length text.new }
{
    rt.arg(i, text).unwrap_or(0)
}

// An argument that is missing, empty, or longer than 4,096 bytes counts as no number.
pub fn number(rt: &impl Env, i: usize) -> Option<u64> {
    let mut text = [0u8; LONGEST];
    let n = argument(rt, i, &mut text);
    decimal(&text[..n])
}

pub fn is_word(rt: &impl Env, i: usize, word: &[u8]) -> bool {
    let mut text = [0u8; LONGEST];
    let n = argument(rt, i, &mut text);
    same(&text[..n], word)
}
