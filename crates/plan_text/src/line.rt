// The numbers of a line, read from a position on.
ghost use Rattle.std.specs.Prelude.{◌≡◌, ◌≤◌, length, drop};
ghost use Rattle.cqf.specs.Limits.{max_hops};
ghost use Rattle.words.specs.Words.{words};
ghost use Rattle.words.specs.Decimal.{decimal_value};
ghost use Rattle.plan_text.specs.Line.{coded, match};
ghost use Rattle.plan_text.specs.Kinds.{items};
ghost use Rattle.plan_text.specs.Reading.{NumberAt, ItemAt, ItemRead, MatchesAs};

use crate::grammar::{Item, Kind, NO_NUMBER, absent_of, is_own, is_word_of};
use crate::kinds::{item_at, items};
use words::digits::decimal;
use words::word::word_at;

// Places for the numbers of a line, or for the ports of its route in any form.
pub(crate) const PLACES: usize = numbers::limits::MAX_HOPS as usize;

// The largest number that is told apart, for any that is larger: it is out of every range.
pub(crate) const MOST: u64 = 18_446_744_073_709_551_614;

// The number of a word, or what stands for none.
fn number_of(word: &[u8]) -> u64
    ensures { result ≡ coded (decimal_value word.now) }
{
    decimal::<MOST>(word).unwrap_or(NO_NUMBER)
}

// A number of a line, and where the words behind it begin.
#[derive(Clone, Copy)]
pub(crate) struct Number {
    pub value: u64,
    pub next: usize,
}

// The first word from a position on as a number.
fn number_at(line: &[u8], at: usize) -> Number
    requires { at ≤ length line.now }
    ensures { NumberAt line.now (words (drop at line.now)) result }
{
    let word = word_at(line, at);
    Number {
        value: number_of(&line[word.start..word.end]),
        next: word.end,
    }
}

// A number of a line, where its word stands at a position.
fn take_item(item: Item, line: &[u8], at: usize) -> Option<Number>
    requires { at ≤ length line.now }
    ensures { ItemAt item line.now (words (drop at line.now)) result }
{
    if is_own(item) {
        return Some(number_at(line, at));
    }
    let word = word_at(line, at);
    if word.start < word.end && is_word_of(item, &line[word.start..word.end]) {
        return Some(number_at(line, word.end));
    }
    None
}

// The same, or what it is where it is left out, if it may be.
fn item_number(item: Item, line: &[u8], at: usize) -> Option<Number>
    requires { at ≤ length line.now }
    ensures { ItemRead item line.now (words (drop at line.now)) result }
{
    if let Some(number) = take_item(item, line, at) {
        return Some(number);
    }
    let value = absent_of(item)?;
    Some(Number { value, next: at })
}

// The numbers of a line, and where the words behind them begin; or the one whose word is missing.
pub(crate) fn match_items(
    kind: Kind,
    line: &[u8],
    at: usize,
    numbers: &mut [u64],
) -> Result<usize, Item>
    requires { (at ≤ length line.now) × (max_hops ≤ length numbers.old) }
    ensures { MatchesAs kind line.now (match (items kind) (words (drop at line.now))) numbers.new result }
{
    let mut next = at;
    for i in 0..items(kind).len() {
        let item = item_at(kind, i);
        let Some(number) = item_number(item, line, next) else {
            return Err(item);
        };
        numbers[i] = number.value;
        next = number.next;
    }
    Ok(next)
}
