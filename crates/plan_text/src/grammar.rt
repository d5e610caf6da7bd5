// The words of lines: the kinds of lines, their numbers, and why a text is refused.
ghost use Rattle.std.specs.Prelude.{◌≡◌};
ghost use Rattle.words.specs.Words.{same_bytes};
ghost use Rattle.plan_text.specs.Grammar.{word_of, is_own, absent_of};
ghost use Rattle.words.specs.Decimal.{parsed_of};

use words::word::same;

// A line by its first word.
#[derive(Clone, Copy, Debug, PartialEq, Eq)]
pub enum Kind {
    Guard,
    Top,
    Port,
    Flow,
    Clocks,
    Format,
    Other,
}

// A number of a line; of a route its ports and how many they are; the first word of a line; what stands past its end.
#[derive(Clone, Copy, Debug, PartialEq, Eq)]
pub enum Item {
    Guard,
    Top,
    Port,
    Rate,
    Blocker,
    Extra,
    Flow,
    Period,
    Count,
    Length,
    Jitter,
    Drift,
    Timing,
    Sync,
    Format,
    Route,
    Hops,
    First,
    End,
}

// Why a text is refused: a word, a number or a range that is wrong, a thing said again, a port twice in a route; guard band, top or flow missing; a port that
// is not in the plan; too many bytes.
#[derive(Clone, Copy, Debug, PartialEq, Eq)]
pub enum Fault {
    Word,
    Number,
    Range,
    Again,
    Twice,
    Incomplete,
    Absent,
    Size,
}

// What stands for a word that is no number, in the array of a line's numbers.
// An Option in each place is no plainer: once the numbers have passed their tests, each use would unwrap it.
pub const NO_NUMBER: u64 = 18_446_744_073_709_551_615;

// Whether a number stands behind the first word of its line.
pub fn is_own(item: Item) -> bool
    ensures { result ≡ is_own item }
{
    matches!(
        item,
        Item::Guard | Item::Top | Item::Port | Item::Flow | Item::Format
    )
}

// The word before a number.
fn word_of(item: Item) -> &'static [u8]
    ensures { result.now ≡ word_of item }
{
    match item {
        Item::Rate => b"rate",
        Item::Blocker => b"blocker",
        Item::Extra => b"extra",
        Item::Period => b"period",
        Item::Count => b"count",
        Item::Length => b"length",
        Item::Jitter => b"jitter",
        Item::Drift => b"drift",
        Item::Timing => b"timing",
        Item::Sync => b"sync",
        Item::Route => b"route",
        _ => b"",
    }
}

// Whether this is the word before a number.
pub fn is_word_of(item: Item, word: &[u8]) -> bool
    ensures { result ≡ same_bytes word.now (word_of item) }
{
    same(word, word_of(item))
}

// What a number is where it is left out, if it may be.
pub fn absent_of(item: Item) -> Option<u64>
    ensures { parsed_of result ≡ absent_of item }
{
    match item {
        Item::Blocker | Item::Extra | Item::Jitter => Some(0),
        Item::Count => Some(1),
        _ => None,
    }
}
