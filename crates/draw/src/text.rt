// The drawing in 80 columns: the title, a line for the least and one for the margin-safe duration, the strip of columns, a line for the
// given duration, the axis in two lines, and what the characters mean.
ghost use Rattle.std.specs.Prelude.{◌≤◌};

use crate::axis::{Unit, step_of, unit_of};
use crate::label::{Given, Least, Marks, Safe, Title};
use crate::run::{Style, say_spaces};
use crate::scale::{Scale, place, scale_of};
use crate::strip::say_strip;
use planner::Planner;
use std::fmt::Display;
use std::io;

const WIDTH: u32 = 80;

// Words stand behind a mark up to this column, and before it in a later one.
const HALF: u64 = 40;

// The digits of a number below 10,000.
fn digits(n: u64) -> u32
    ensures { result ≤ 4 }
{
    match n {
        0..10 => 1,
        10..100 => 2,
        100..1_000 => 3,
        _ => 4,
    }
}

// The columns that a duration below a second in groups of three digits takes with its unit.
fn columns_of(duration: u64) -> u32
    ensures { result ≤ 15 }
{
    match duration {
        0..1_000 => 3 + digits(duration),
        1_000..1_000_000 => 7 + digits(duration / 1_000),
        _ => 11 + digits(duration / 1_000_000),
    }
}

const ABOVE: char = 'v';

const BENEATH: char = '^';

// What stands before words of so many columns about a place.
fn open_mark(out: &impl Print, mark: char, place: u64, words: u32) -> io::Result<()> {
    if place <= HALF {
        say_spaces(out, 0, place)?;
        return print!(out; "{mark} ");
    }
    say_spaces(out, u64::from(words) + 1, place)
}

// What stands behind them.
fn close_mark(out: &impl Print, mark: char, place: u64) -> io::Result<()> {
    if place <= HALF {
        return out.println("");
    }
    println!(out; " {mark}")
}

// Words of so many columns about a duration, and the mark at its place.
fn say_mark(
    out: &impl Print,
    scale: Scale,
    duration: u64,
    mark: char,
    columns: u32,
    words: impl Display + Drop,
) -> io::Result<()> {
    let at = place(scale, duration) as u64;
    open_mark(out, mark, at, columns)?;
    out.print(words)?;
    close_mark(out, mark, at)
}

fn say_marks(out: &impl Print, scale: Scale, marks: Marks) -> io::Result<()> {
    let Some(least) = marks.least else {
        return out.println(Least(None));
    };
    say_mark(
        out,
        scale,
        least,
        ABOVE,
        6 + columns_of(least),
        Least(Some(least)),
    )?;
    match marks.safe {
        Some(safe) => say_mark(
            out,
            scale,
            safe,
            ABOVE,
            12 + columns_of(safe),
            Safe(Some(safe)),
        ),
        None => out.println(Safe(None)),
    }
}

// The columns of the words about the given duration.
fn given_columns(given: Given) -> u32 {
    if given.admissible {
        18 + columns_of(given.duration)
    } else {
        15 + columns_of(given.duration)
    }
}

// The two lines of the axis.
#[derive(Clone, Copy)]
enum Row {
    Ticks,
    Numbers,
}

// A tick, and what is told beneath it.
#[derive(Clone, Copy)]
struct Tick {
    x: u32,
    number: u32,
}

// A tick or its number behind so many columns; a number begins at its tick, or ends with the line. How far the line has come.
fn say_tick(out: &impl Print, row: Row, at: u64, tick: Tick) -> io::Result<u64> {
    match row {
        Row::Ticks => {
            say_spaces(out, at, u64::from(tick.x))?;
            out.print('|')?;
            Ok(u64::from(tick.x) + 1)
        }
        Row::Numbers => {
            let size = digits(u64::from(tick.number));
            let start = tick.x.min(WIDTH - size);
            say_spaces(out, at, u64::from(start))?;
            out.print(tick.number)?;
            Ok(u64::from(start) + u64::from(size))
        }
    }
}

fn say_row(out: &impl Print, row: Row, scale: Scale) -> io::Result<()> {
    let step = step_of(scale.top);
    let unit = unit_of(step).size();
    let mut at = 0;
    for n in 0..=scale.top / step {
        let mark = n.saturating_mul(step);
        let tick = Tick {
            x: place(scale, u64::from(mark)),
            number: mark / unit,
        };
        at = say_tick(out, row, at, tick)?;
    }
    out.println("")
}

fn unit_name(unit: Unit) -> &'static str {
    match unit {
        Unit::Nanosecond => "ns",
        Unit::Microsecond => "us",
        Unit::Millisecond => "ms",
    }
}

fn say_legend(out: &impl Print, top: u32) -> io::Result<()> {
    let unit = unit_name(unit_of(step_of(top)));
    println!(out; "# admissible, - refused, + both within a column; axis in {unit}")
}

pub(crate) fn say_text(out: &impl Print, planner: Planner, marks: Marks) -> io::Result<()> {
    let scale = scale_of(planner.top, WIDTH);
    out.println(Title(planner.top))?;
    say_marks(out, scale, marks)?;
    say_strip(out, Style::Text, planner, scale)?;
    out.println("")?;
    if let Some(given) = marks.given {
        say_mark(
            out,
            scale,
            given.duration,
            BENEATH,
            given_columns(given),
            given,
        )?;
    }
    say_row(out, Row::Ticks, scale)?;
    say_row(out, Row::Numbers, scale)?;
    say_legend(out, planner.top)
}
