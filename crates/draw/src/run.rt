// Columns of one kind, one beside the other: a rectangle of the picture, or characters. The kinds differ without colour too: a full
// box, a hatched one, and one that stands out above and below; or three characters.
use crate::scale::{Scale, left};
use std::io;
use streams::say_choice;

#[derive(Clone, Copy, PartialEq, Eq)]
pub(crate) enum Kind {
    Admissible,
    Refused,
    Both,
}

// The characters in their places, each kind's by its number, and behind them the space.
const CHARACTERS: &[u8] = b"#|-|+| ";

const SPACE: usize = 3;

impl Kind {
    fn rectangle(self) -> &'static str {
        match self {
            Kind::Admissible => "class='admissible' y='104' height='40'",
            Kind::Refused => "class='refused' y='104' height='40'",
            Kind::Both => "class='both' y='96' height='56'",
        }
    }
}

// How a run is drawn.
#[derive(Clone, Copy)]
pub(crate) enum Style {
    Picture,
    Text,
}

// The character of this number in each place from one up to another.
fn repeat(out: &impl Print, number: usize, from: u64, to: u64) -> io::Result<()> {
    for _ in from..to {
        say_choice(out, CHARACTERS, number)?;
    }
    Ok(())
}

pub(crate) fn say_spaces(out: &impl Print, from: u64, to: u64) -> io::Result<()> {
    repeat(out, SPACE, from, to)
}

// The columns from one up to another that is no longer of the kind.
pub(crate) fn say_run(
    out: &impl Print,
    style: Style,
    scale: Scale,
    kind: Kind,
    from: u32,
    to: u32,
) -> io::Result<()> {
    let x = left(scale, from);
    let end = left(scale, to);
    if end <= x {
        return Ok(());
    }
    match style {
        Style::Text => repeat(out, kind as usize, x, end),
        Style::Picture => {
            let rectangle = kind.rectangle();
            println!(out; "<rect {rectangle} x='{x}' width='{}'/>", end - x)
        }
    }
}
