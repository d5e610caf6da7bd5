// The drawing as SVG, 800 wide with a margin of 40 on either side. From top to bottom: the title, two rows of words for the least and
// the margin-safe duration, the strip of columns, the mark of the given duration, the axis, and what the marks mean.
ghost use Rattle.std.specs.Prelude.{◌≤◌};

use crate::axis::{Unit, step_of, unit_of};
use crate::label::{Given, Least, Marks, Safe, Title};
use crate::run::Style;
use crate::scale::{Scale, place, position, scale_of};
use crate::strip::say_strip;
use planner::Planner;
use std::io;

const WIDTH: u32 = 800;

// Where the marks end in the upper and in the lower row, and how much deeper the words stand.
const UPPER: u32 = 40;

const LOWER: u32 = 60;

const DEEPER: u32 = 12;

// Words stand so far beside their mark.
const BESIDE: u32 = 8;

// In a place above this words may not fit behind their mark, and in one below that not before it.
const FITS_BEHIND: u32 = 600;

const FITS_BEFORE: u32 = 200;

fn say_head(out: &impl Print, top: u32) -> io::Result<()> {
    let title = Title(top);
    out.println(
        "<svg xmlns='http://www.w3.org/2000/svg' width='880' height='236' viewBox='-40 0 880 236' font-family='sans-serif' font-size='14'>",
    )?;
    println!(out; "<title>{title}</title>")?;
    out.println(
        "<style>.admissible{fill:#0b4f8a}.refused{fill:url(#hatch)}.both{fill:#e69f00;stroke:#e69f00}.frame{fill:none;stroke:#777}.mark,.axis{stroke:#000}</style>",
    )?;
    out.println(
        "<defs><pattern id='hatch' width='6' height='6' patternUnits='userSpaceOnUse'><path d='M-1 1 1-1M0 6 6 0M5 7 7 5' stroke='#777'/></pattern></defs>",
    )?;
    println!(out;
        "<rect x='-40' width='880' height='236' fill='#fff'/>\n<text x='0' y='22' font-size='16'>{title}</text>"
    )
}

// Where words stand about their mark.
#[derive(Clone, Copy)]
enum Side {
    Before,
    Behind,
}

// A mark above the strip that goes up to a row, and the start of its words.
fn open_mark(out: &impl Print, place: u32, row: u32, side: Side) -> io::Result<()> {
    let deeper = u64::from(row) + u64::from(DEEPER);
    println!(out; "<path class='mark' d='M{place}.5 {row}V86h-4l4 8 4-8h-4'/>")?;
    match side {
        Side::Before => {
            let x = place.saturating_sub(BESIDE);
            print!(out; "<text y='{deeper}' text-anchor='end' x='{x}'>")
        }
        Side::Behind => {
            let x = u64::from(place) + u64::from(BESIDE);
            print!(out; "<text y='{deeper}' x='{x}'>")
        }
    }
}

fn say_least_mark(
    out: &impl Print,
    least: Option<u64>,
    place: u32,
    row: u32,
    side: Side,
) -> io::Result<()> {
    open_mark(out, place, row, side)?;
    println!(out; "{}</text>", Least(least))
}

fn say_safe_mark(
    out: &impl Print,
    safe: Option<u64>,
    place: u32,
    row: u32,
    side: Side,
) -> io::Result<()> {
    open_mark(out, place, row, side)?;
    println!(out; "{}</text>", Safe(safe))
}

// The least and the margin-safe duration, so that no mark crosses the words of the other. Words without a mark stand in the upper row.
fn say_marks(out: &impl Print, scale: Scale, marks: Marks) -> io::Result<()> {
    let Some(least) = marks.least else {
        return println!(out; "<text y='52' x='0'>{}</text>", Least(None));
    };
    let at = place(scale, least);
    let Some(safe) = marks.safe else {
        println!(out; "<text y='52' x='0'>{}</text>", Safe(None))?;
        let side = if FITS_BEHIND < at {
            Side::Before
        } else {
            Side::Behind
        };
        return say_least_mark(out, marks.least, at, LOWER, side);
    };
    let later = place(scale, safe);
    if FITS_BEHIND < later {
        say_safe_mark(out, marks.safe, later, UPPER, Side::Before)?;
        let side = if FITS_BEFORE <= at {
            Side::Before
        } else {
            Side::Behind
        };
        return say_least_mark(out, marks.least, at, LOWER, side);
    }
    say_least_mark(out, marks.least, at, UPPER, Side::Behind)?;
    say_safe_mark(out, marks.safe, later, LOWER, Side::Behind)
}

fn say_given_mark(out: &impl Print, scale: Scale, given: Given) -> io::Result<()> {
    let at = place(scale, given.duration);
    println!(out; "<path class='mark' d='M{at}.5 154l-5 10h10z'/>")?;
    println!(out; "<path class='mark' d='M469.5 209l-5 10h10z'/>")?;
    println!(out; "<text y='220' x='482'>{given}</text>")
}

fn unit_name(unit: Unit) -> &'static str {
    match unit {
        Unit::Nanosecond => "ns",
        Unit::Microsecond => "µs",
        Unit::Millisecond => "ms",
    }
}

fn say_tick(out: &impl Print, scale: Scale, tick: u32, unit: Unit) -> io::Result<()> {
    let x = position(scale, tick);
    let number = tick / unit.size();
    print!(out; "<path class='axis' d='M{x} 170v6'/>")?;
    println!(out;
        "<text text-anchor='middle' y='192' x='{x}'>{number} {}</text>",
        unit_name(unit)
    )
}

// The end of the strip, and the axis beneath it.
fn say_axis(out: &impl Print, scale: Scale) -> io::Result<()> {
    println!(out; "</g>\n<path class='axis' d='M0 170H800'/>")?;
    let step = step_of(scale.top);
    let unit = unit_of(step);
    for n in 0..=scale.top / step {
        say_tick(out, scale, n.saturating_mul(step), unit)?;
    }
    Ok(())
}

fn say_legend(out: &impl Print) -> io::Result<()> {
    println!(out;
        "<g id='legend'><rect class='admissible' x='0' y='208' width='24' height='14'/><text x='32' y='220'>admissible</text>"
    )?;
    println!(out;
        "<rect class='refused' x='130' y='208' width='24' height='14'/><rect class='frame' x='130' y='208' width='24' height='14'/><text x='162' y='220'>refused</text>"
    )?;
    println!(out;
        "<rect class='both' x='240' y='204' width='24' height='22'/><text x='272' y='220'>both within a pixel</text></g>"
    )
}

pub(crate) fn say_picture(out: &impl Print, planner: Planner, marks: Marks) -> io::Result<()> {
    let scale = scale_of(planner.top, WIDTH);
    say_head(out, planner.top)?;
    say_marks(out, scale, marks)?;
    println!(out; "<rect class='frame' x='0' y='104' width='800' height='40'/>\n<g id='strip'>")?;
    say_strip(out, Style::Picture, planner, scale)?;
    say_axis(out, scale)?;
    say_legend(out)?;
    if let Some(given) = marks.given {
        say_given_mark(out, scale, given)?;
    }
    println!(out; "</svg>")
}
