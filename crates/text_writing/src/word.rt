// The words of a line: each behind a space, but for the first.
ghost use Rattle.std.specs.Prelude.{[], ◌∷◌, ◌++◌, ◌+◌, ◌≤◌, ◌<◌, length};
ghost use Rattle.words.specs.Lines.{line_feed};
ghost use Rattle.plan_text.specs.Print.{digits, line_bytes};
ghost use Rattle.text_writing.specs.Puts.{Puts, far_line};
ghost use Rattle.text_writing.specs.Bytes.{number_bytes, pair_bytes, unless_bytes};

use crate::number::{put_byte, put_bytes, put_decimal};

const SPACE: u8 = b' ';

const LINE_FEED: u8 = b'\n';

const MAX_DIGITS: usize = 9;

pub(crate) fn put_end(out: &mut [u8], at: usize) -> usize
    requires { at ≤ far_line }
    ensures { Puts 1 (line_feed ∷ []) out.old at result out.new }
{
    put_byte(out, at, LINE_FEED)
}

pub(crate) fn put_number(out: &mut [u8], at: usize, n: u32) -> usize
    requires { at ≤ far_line }
    ensures { Puts 10 (number_bytes n) out.old at result out.new }
{
    let next = put_byte(out, at, SPACE);
    put_decimal(out, next, MAX_DIGITS, n)
}

// The first word of a line, and a number.
pub(crate) fn put_first(out: &mut [u8], at: usize, word: &[u8], n: u32) -> usize
    requires { at + length word.now ≤ far_line }
    ensures { Puts (length word.now + 10) (word.now ++ number_bytes n) out.old at result out.new }
{
    let next = put_bytes(out, at, word);
    put_number(out, next, n)
}

// A word and its number.
pub(crate) fn put_pair(out: &mut [u8], at: usize, word: &[u8], n: u32) -> usize
    requires { at + length word.now < far_line }
    ensures { Puts (1 + (length word.now + 10)) (pair_bytes word.now n) out.old at result out.new }
{
    let next = put_byte(out, at, SPACE);
    put_first(out, next, word, n)
}

// The same, left out where the number is the one that its absence stands for.
pub(crate) fn put_unless(out: &mut [u8], at: usize, word: &[u8], n: u32, absent: u32) -> usize
    requires { at + length word.now < far_line }
    ensures { Puts (1 + (length word.now + 10)) (unless_bytes word.now n absent) out.old at result out.new }
{
    if n == absent {
        at
    } else {
        put_pair(out, at, word, n)
    }
}

// A line of a word and a number.
pub(crate) fn put_line(out: &mut [u8], at: usize, word: &[u8], n: u32) -> usize
    requires { at + length word.now + 10 ≤ far_line }
    ensures { Puts (length word.now + 10 + 1) (line_bytes (word.now ∷ digits n ∷ [])) out.old at result out.new }
{
    let next = put_first(out, at, word, n);
    put_end(out, next)
}
