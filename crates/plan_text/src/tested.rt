// The second and the third test of a line: its numbers and its route, in arrays.
ghost use Rattle.std.specs.Prelude.{◌≡◌, ◌≤◌, length};
ghost use Rattle.cqf.specs.Form.{most_hops_in};
ghost use Rattle.cqf.specs.Limits.{max_hops};
ghost use Rattle.plan_text.specs.Line.{form_by, number_test, range_test, port_test};
ghost use Rattle.plan_text.specs.Reading.{decoded, numbers_by, RangesAs, NumbersAs};

use crate::grammar::{Fault, Item, Kind, NO_NUMBER};
use crate::kinds::{is_routed, item_at, items};
use crate::line::PLACES;
use crate::ranges::in_range;
use crate::refusal::{LineRefusal, refused};
use crate::says::Says;
use crate::tests::first_failing;

// The most ports of a route.
fn most_hops(newer: bool) -> usize
    ensures { result ≡ most_hops_in (form_by newer) }
{
    if newer {
        PLACES
    } else {
        numbers::limits::OLDER_MAX_HOPS as usize
    }
}

// The numbers of a line of this kind, which stand first in their array.
fn numbers_by(kind: Kind, numbers: &[u64]) -> &[u64]
    requires { max_hops ≤ length numbers.now }
    ensures { result.now ≡ numbers_by kind numbers.now }
{
    &numbers[..items(kind).len()]
}

// The third test: the ranges of the numbers, how many ports the route has, and theirs.
fn test_ranges(
    newer: bool,
    kind: Kind,
    numbers: &[u64],
    route: &[u64],
    hops: usize,
) -> Result<Says, LineRefusal>
    requires { (max_hops ≤ length numbers.now) × (max_hops ≤ length route.now) }
    ensures { RangesAs (form_by newer) kind numbers.now route.now hops result }
{
    let out = first_failing(
        numbers_by(kind, numbers),
        |i, n| -> bool
            ensures { result ≡ range_test kind i n }
        { in_range(item_at(kind, i), n) },
    );
    if let Some(i) = out {
        return Err(LineRefusal {
            fault: Fault::Range,
            item: item_at(kind, i),
            value: numbers[i],
        });
    }
    if most_hops(newer) < hops {
        return Err(LineRefusal {
            fault: Fault::Range,
            item: Item::Hops,
            value: hops as u64,
        });
    }
    let out = first_failing(
        &route[..hops],
        |i, n| -> bool
            ensures { result ≡ port_test i n }
        { in_range(Item::Route, n) },
    );
    if let Some(i) = out {
        return Err(LineRefusal {
            fault: Fault::Range,
            item: Item::Route,
            value: route[i],
        });
    }
    Ok(Says { kind, hops })
}

// The second test: numbers, then the route, of so many ports, unless one of its words is no number; then the third.
pub(crate) fn test_numbers(
    newer: bool,
    kind: Kind,
    numbers: &[u64],
    route: &[u64],
    ports: Option<usize>,
) -> Result<Says, LineRefusal>
    requires { (max_hops ≤ length numbers.now) × (max_hops ≤ length route.now) }
    ensures { NumbersAs (form_by newer) kind numbers.now route.now ports result }
{
    let out = first_failing(
        numbers_by(kind, numbers),
        |i, n| -> bool
            ensures { result ≡ number_test i (decoded n) }
        { n != NO_NUMBER },
    );
    if let Some(i) = out {
        return Err(refused(Fault::Number, item_at(kind, i)));
    }
    let Some(hops) = ports else {
        return Err(refused(Fault::Number, Item::Route));
    };
    if hops == 0 && is_routed(kind) {
        return Err(refused(Fault::Number, Item::Route));
    }
    test_ranges(newer, kind, numbers, route, hops)
}
