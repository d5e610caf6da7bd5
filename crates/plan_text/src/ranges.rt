// The range of each number.
ghost use Rattle.std.specs.Prelude.{◌≡◌};
ghost use Rattle.plan_text.specs.Grammar.{range_of, low_of, high_of, zero_too};

use crate::grammar::Item;
use numbers::limits::between;

// The least and the largest of its range.
fn bounds(item: Item) -> (u64, u64)
    ensures { (result.0 ≡ low_of item) × (result.1 ≡ high_of item) }
{
    match item {
        Item::Guard => (0, 1_000_000),
        Item::Top => (1, 100_000_000),
        Item::Port => (1, 64),
        Item::Rate => (1, 100_000),
        Item::Blocker => (64, 2_000),
        Item::Extra => (0, 64),
        Item::Flow => (1, 256),
        Item::Period => (1_000, 100_000_000),
        Item::Count => (1, 64),
        Item::Length => (64, 2_000),
        Item::Jitter => (0, 10_000_000),
        Item::Drift => (0, 1_000),
        Item::Timing => (0, 1_000),
        Item::Sync => (0, 1_000_000),
        Item::Format => (2, 2),
        Item::Route => (1, 64),
        Item::Hops => (1, 24),
        Item::First => (0, 0),
        Item::End => (0, 0),
    }
}

pub fn low_of(item: Item) -> u64
    ensures { result ≡ low_of item }
{
    bounds(item).0
}

pub fn high_of(item: Item) -> u64
    ensures { result ≡ high_of item }
{
    bounds(item).1
}

// Whether 0 is allowed too.
fn zero_too(item: Item) -> bool
    ensures { result ≡ zero_too item }
{
    matches!(item, Item::Blocker)
}

pub fn in_range(item: Item, n: u64) -> bool
    ensures { result ≡ range_of item n }
{
    let (low, high) = bounds(item);
    n == 0 && zero_too(item) || between(low, high, n)
}
