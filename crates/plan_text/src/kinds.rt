// The kinds of lines: by the first word, and the numbers of a line of each.
ghost use Rattle.std.specs.Prelude.{◌≡◌, get_or};
ghost use Rattle.plan_text.specs.Kinds.{items, is_routed, is_other, kind_of, later_kind, kind_in};
ghost use Rattle.plan_text.specs.declared.grammar.Item.{Item};

use crate::grammar::{Item, Kind};
use words::word::same;

// The kind of a line, by its first word.
// A match on the words leaves a goal for each byte that differs, and its proof did not close.
pub fn kind_of(word: &[u8]) -> Kind
    ensures { result ≡ kind_of word.now }
{
    if same(word, b"guard") {
        Kind::Guard
    } else if same(word, b"top") {
        Kind::Top
    } else if same(word, b"port") {
        Kind::Port
    } else if same(word, b"flow") {
        Kind::Flow
    } else if same(word, b"clocks") {
        Kind::Clocks
    } else if same(word, b"format") {
        Kind::Format
    } else {
        Kind::Other
    }
}

// The same behind other lines, which no line there asks for a form.
fn later_kind(kind: Kind) -> Kind
    ensures { result ≡ later_kind kind }
{
    match kind {
        Kind::Format => Kind::Other,
        _ => kind,
    }
}

pub fn kind_in(begun: bool, word: &[u8]) -> Kind
    ensures { result ≡ kind_in begun word.now }
{
    let kind = kind_of(word);
    if begun { later_kind(kind) } else { kind }
}

// Whether a line is of no kind.
pub fn is_other(kind: Kind) -> bool
    ensures { result ≡ is_other kind }
{
    matches!(kind, Kind::Other)
}

// Whether a route follows the numbers of a line.
pub fn is_routed(kind: Kind) -> bool
    ensures { result ≡ is_routed kind }
{
    matches!(kind, Kind::Flow)
}

// The numbers of a line.
pub fn items(kind: Kind) -> &'static [Item]
    ensures { result.now ≡ items kind }
{
    match kind {
        Kind::Guard => &[Item::Guard],
        Kind::Top => &[Item::Top],
        Kind::Port => &[Item::Port, Item::Rate, Item::Blocker, Item::Extra],
        Kind::Flow => &[
            Item::Flow,
            Item::Period,
            Item::Count,
            Item::Length,
            Item::Jitter,
        ],
        Kind::Clocks => &[Item::Drift, Item::Timing, Item::Sync],
        Kind::Format => &[Item::Format],
        Kind::Other => &[],
    }
}

// The number at a place of a line; the end of the line behind them.
pub fn item_at(kind: Kind, i: usize) -> Item
    ensures { result ≡ get_or (items kind) i Item.End }
{
    let numbers = items(kind);
    if i < numbers.len() {
        numbers[i]
    } else {
        Item::End
    }
}
