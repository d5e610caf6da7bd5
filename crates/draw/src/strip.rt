// The columns of a drawing by what they stand for: admissible durations alone, refused ones alone, or both. A span that was asked for
// is kept from column to column until it ends, so that a column takes one question at most.
use crate::run::{Kind, Style, say_run};
use crate::scale::{Scale, upto};
use planner::{Planner, SpanRecord};
use std::io;

// One behind all durations, where there is none.
const BEHIND_ALL: SpanRecord = SpanRecord {
    first: 18_446_744_073_709_551_615,
    last: 18_446_744_073_709_551_615,
};

// The first span that ends at a duration or later, if the one seen last is not it.
fn span_from(planner: Planner, seen: SpanRecord, duration: u64) -> SpanRecord {
    if duration <= seen.last {
        return seen;
    }
    planner::span(planner, duration).unwrap_or(BEHIND_ALL)
}

// What the durations from first to last are, by the first span that ends at the first of them or later.
fn kind_of(seen: SpanRecord, first: u64, last: u64) -> Kind {
    if last < seen.first {
        Kind::Refused
    } else if first < seen.first || seen.last < last {
        Kind::Both
    } else {
        Kind::Admissible
    }
}

// All columns, those of one kind beside each other as one.
pub(crate) fn say_strip(
    out: &impl Print,
    style: Style,
    planner: Planner,
    scale: Scale,
) -> io::Result<()> {
    let mut seen = SpanRecord { first: 0, last: 0 };
    let mut kind = Kind::Refused;
    let mut from: u32 = 0;
    for column in 0..scale.columns {
        let first = (upto(scale, column) as u64) + 1;
        let last = upto(scale, column + 1) as u64;
        seen = span_from(planner, seen, first);
        let next = kind_of(seen, first, last);
        if next != kind {
            say_run(out, style, scale, kind, from, column)?;
            kind = next;
            from = column;
        }
    }
    say_run(out, style, scale, kind, from, scale.columns)
}
