// The axis from 0 to top: the distance of its marks, and the unit in which they are told.
ghost use Rattle.std.specs.Prelude.{◌≤◌};

// The most marks behind the one at 0.
const MOST_MARKS: u32 = 10;

// A tenth of every top is below five times this.
const LARGEST_POWER: u32 = 100_000_000;

#[derive(Clone, Copy)]
pub(crate) enum Unit {
    Nanosecond,
    Microsecond,
    Millisecond,
}

impl Unit {
    // In ns.
    pub(crate) fn size(self) -> u32
        ensures { 1 ≤ result }
    {
        match self {
            Unit::Nanosecond => 1,
            Unit::Microsecond => 1_000,
            Unit::Millisecond => 1_000_000,
        }
    }
}

// The distance of two marks: the smallest of 1, 2 and 5 times the powers of ten that makes few enough of them.
pub(crate) fn step_of(top: u32) -> u32
    ensures { 1 ≤ result }
{
    let least = top.div_ceil(MOST_MARKS);
    let mut power: u32 = 1;
    while power < LARGEST_POWER {
        if least <= power {
            return power;
        }
        if least <= 2 * power {
            return 2 * power;
        }
        if least <= 5 * power {
            return 5 * power;
        }
        power *= 10;
    }
    power
}

// The unit for marks at this distance, in ns.
pub(crate) fn unit_of(step: u32) -> Unit {
    match step {
        1_000_000.. => Unit::Millisecond,
        1_000.. => Unit::Microsecond,
        _ => Unit::Nanosecond,
    }
}
