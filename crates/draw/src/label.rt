// What a drawing marks, in words: the least, the margin-safe and the given duration.
use planner::Planner;
use std::fmt;
use std::fmt::{Display, Formatter};

// A duration that was given, and whether it is admissible.
#[derive(Clone, Copy)]
pub(crate) struct Given {
    pub duration: u64,
    pub admissible: bool,
}

// The least, the margin-safe and the given duration.
#[derive(Clone, Copy)]
pub(crate) struct Marks {
    pub least: Option<u64>,
    pub safe: Option<u64>,
    pub given: Option<Given>,
}

pub(crate) fn marks_of(planner: Planner, given: Option<Given>) -> Marks {
    let mut scratch = [0u64; 64];
    Marks {
        least: planner::least(planner, &mut scratch).ok(),
        safe: planner::margin_safe(planner, &mut scratch).ok(),
        given,
    }
}

// A duration, its digits in groups of three.
#[derive(Clone, Copy)]
struct Grouped(u64);

impl Display for Grouped {
    fn fmt<W: fmt::Write>(&self, f: &mut Formatter<W>) -> fmt::Result {
        let n = self.0;
        let thousands = n / 1_000 % 1_000;
        let units = n % 1_000;
        match n {
            0..1_000 => write!(f, "{n} ns"),
            1_000..1_000_000 => write!(f, "{thousands},{units:03} ns"),
            _ => write!(f, "{},{thousands:03},{units:03} ns", n / 1_000_000),
        }
    }
}

// The title of a drawing up to this top.
#[derive(Clone, Copy)]
pub(crate) struct Title(pub u32);

impl Display for Title {
    fn fmt<W: fmt::Write>(&self, f: &mut Formatter<W>) -> fmt::Result {
        let top = Grouped(u64::from(self.0));
        write!(f, "Cycle durations up to top, {top}")
    }
}

#[derive(Clone, Copy)]
pub(crate) struct Least(pub Option<u64>);

impl Display for Least {
    fn fmt<W: fmt::Write>(&self, f: &mut Formatter<W>) -> fmt::Result {
        match self.0 {
            Some(least) => write!(f, "least {}", Grouped(least)),
            None => write!(f, "no duration up to top is admissible"),
        }
    }
}

#[derive(Clone, Copy)]
pub(crate) struct Safe(pub Option<u64>);

impl Display for Safe {
    fn fmt<W: fmt::Write>(&self, f: &mut Formatter<W>) -> fmt::Result {
        match self.0 {
            Some(safe) => write!(f, "margin-safe {}", Grouped(safe)),
            None => write!(f, "top is refused: no margin-safe duration"),
        }
    }
}

impl Display for Given {
    fn fmt<W: fmt::Write>(&self, f: &mut Formatter<W>) -> fmt::Result {
        let duration = Grouped(self.duration);
        if self.admissible {
            write!(f, "given {duration}: admissible")
        } else {
            write!(f, "given {duration}: refused")
        }
    }
}
