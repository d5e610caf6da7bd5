// The words in which a text is refused.
use crate::name::name_of;
use plan_text::TextRefusal;
use plan_text::grammar::{Fault, Item};
use plan_text::ranges::{high_of, low_of};
use std::fmt;
use std::fmt::{Display, Formatter};

// The largest number that is told apart from larger ones.
const LARGEST: u64 = 18_446_744_073_709_551_614;

// A number as the text has it.
#[derive(Clone, Copy)]
struct Value(u64);

impl Display for Value {
    fn fmt<W: fmt::Write>(&self, f: &mut Formatter<W>) -> fmt::Result {
        let value = self.0;
        if value < LARGEST {
            write!(f, "{value}")
        } else {
            write!(f, "{value} or more")
        }
    }
}

fn write_missing<W: fmt::Write>(f: &mut Formatter<W>, item: Item) -> fmt::Result {
    write!(f, "{} is missing", name_of(item))
}

fn write_word<W: fmt::Write>(f: &mut Formatter<W>, item: Item) -> fmt::Result {
    match item {
        Item::First => write!(
            f,
            "the first word is not guard, top, port, flow, clocks, or format before all others"
        ),
        Item::End => write!(f, "nothing more belongs on this line"),
        _ => write!(f, "the word {} is missing", name_of(item)),
    }
}

fn write_no_number<W: fmt::Write>(f: &mut Formatter<W>, item: Item) -> fmt::Result {
    match item {
        Item::Route => write!(f, "the route is not a row of numbers"),
        _ => write!(f, "{} is not a number", name_of(item)),
    }
}

// A value outside the range of a number, with the word for it. 0 may be allowed beside the range.
fn write_outside<W: fmt::Write>(
    f: &mut Formatter<W>,
    word: Item,
    item: Item,
    value: u64,
    beside: &str,
) -> fmt::Result {
    let word = name_of(word);
    let low = low_of(item);
    let high = high_of(item);
    write!(f, "{word} {} is not {beside}{low} to {high}", Value(value))
}

fn write_range<W: fmt::Write>(f: &mut Formatter<W>, item: Item, value: u64) -> fmt::Result {
    match item {
        Item::Hops => write!(
            f,
            "a route of {value} ports is too long: at most 16, or 24 behind format 2"
        ),
        Item::Format => write!(f, "{} {} is not 2", name_of(item), Value(value)),
        Item::Blocker => write_outside(f, item, item, value, "0 or "),
        Item::Route => write_outside(f, Item::Port, item, value, ""),
        _ => write_outside(f, item, item, value, ""),
    }
}

fn write_again<W: fmt::Write>(f: &mut Formatter<W>, item: Item, value: u64) -> fmt::Result {
    match item {
        Item::Drift => write!(f, "clocks is said again"),
        Item::Port | Item::Flow => { write!(f, "{} {} is said again", name_of(item), Value(value)) }
        _ => write!(f, "{} is said again", name_of(item)),
    }
}

// Why a text is refused, and in which line.
#[derive(Clone, Copy)]
pub struct Told(pub TextRefusal);

impl Display for Told {
    fn fmt<W: fmt::Write>(&self, f: &mut Formatter<W>) -> fmt::Result {
        let TextRefusal {
            line,
            fault,
            item,
            value,
        } = self.0;
        write!(f, "line {line}: ")?;
        match fault {
            Fault::Word => write_word(f, item),
            Fault::Number => write_no_number(f, item),
            Fault::Range => write_range(f, item, value),
            Fault::Again => write_again(f, item, value),
            Fault::Twice => write!(f, "the route names a port twice"),
            Fault::Incomplete => write_missing(f, item),
            Fault::Absent => write!(f, "port {} is not in the plan", Value(value)),
            Fault::Size => write!(f, "the text has over 65536 bytes"),
        }
    }
}
