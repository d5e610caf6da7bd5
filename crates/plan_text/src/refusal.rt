// Why a line and a text are refused.
ghost use Rattle.std.specs.Prelude.{◌≡◌};

use crate::grammar::{Fault, Item};

// What is wrong with a line, and what is named with it.
#[derive(Clone, Copy, Debug, PartialEq, Eq)]
pub(crate) struct LineRefusal {
    pub fault: Fault,
    pub item: Item,
    pub value: u64,
}

// A number is not named.
pub(crate) fn refused(fault: Fault, item: Item) -> LineRefusal
    ensures { result ≡ record { fault = fault; item = item; value = 0 } }
{
    LineRefusal {
        fault,
        item,
        value: 0,
    }
}

// The line at which a text is refused, why, and what is named with it.
#[derive(Clone, Copy, Debug, PartialEq, Eq)]
pub struct TextRefusal {
    pub line: u32,
    pub fault: Fault,
    pub item: Item,
    pub value: u64,
}

// A line's refusal, at its line.
pub(crate) fn at_line(line: u32, refusal: LineRefusal) -> TextRefusal
    ensures { result ≡ record { line = line; fault = refusal.fault; item = refusal.item; value = refusal.value } }
{
    TextRefusal {
        line,
        fault: refusal.fault,
        item: refusal.item,
        value: refusal.value,
    }
}
