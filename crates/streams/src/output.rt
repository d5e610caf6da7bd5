// What stands on standard error.
use std::fmt::Display;
use std::{fmt, io};

// Why a plan is not held: the input could not be read, or the plan is refused, by a number and at a place.
#[derive(Clone, Copy)]
pub enum Unheld {
    Unreadable,
    Refused { number: u32, place: usize },
}

impl Display for Unheld {
    fn fmt<W: fmt::Write>(&self, f: &mut fmt::Formatter<W>) -> fmt::Result {
        match self {
            Unheld::Unreadable => write!(f, "cannot read the plan"),
            Unheld::Refused { number, place } => write!(f, "refused {number} place {place}"),
        }
    }
}

// A line for what is no result. Nothing is left to tell that it could not be written.
pub fn complain(rt: &impl Eprint, line: impl Display + Drop) {
    let _ = rt.eprintln(line);
}

// The last thing that a program does with what it printed: a write that failed is told.
pub fn finish(rt: &impl Eprint, wrote: io::Result<()>) {
    if wrote.is_err() {
        complain(rt, "cannot write");
    }
}
