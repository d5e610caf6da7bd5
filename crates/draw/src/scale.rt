// The durations from 1 to top over the columns of a drawing: as many columns as the drawing is wide, or one a duration where there are
// fewer. A column stands for the durations behind those of the columns before it, up to its own share of top.
ghost use Rattle.std.specs.Prelude.{◌≤◌};

#[derive(Clone, Copy)]
pub(crate) struct Scale {
    pub top: u32,
    pub width: u32,
    pub columns: u32,
}

pub(crate) fn scale_of(top: u32, width: u32) -> Scale {
    Scale {
        top,
        width,
        columns: top.min(width),
    }
}

// How much of a whole the first of its equal parts take, rounded down.
fn share(part: u32, whole: u32, parts: u32) -> u32
    ensures { result ≤ whole }
{
    if parts <= part {
        return whole;
    }
    ((part as u64) * (whole as u64) / (parts as u64)) as u32
}

// The last duration of the first so many columns.
pub(crate) fn upto(scale: Scale, columns: u32) -> u32 {
    share(columns, scale.top, scale.columns)
}

// Where in the drawing a column begins.
pub(crate) fn left(scale: Scale, column: u32) -> u64 {
    share(column, scale.width, scale.columns) as u64
}

// Where on the axis a duration is, rounded down.
pub(crate) fn position(scale: Scale, duration: u32) -> u64 {
    share(duration, scale.width, scale.top) as u64
}

// The place of the drawing, counted from 0, in which a duration from 1 to top lies: the one before its position rounded up.
pub(crate) fn place(scale: Scale, duration: u64) -> u32 {
    let behind = (scale.top as u64).saturating_sub(duration) as u32;
    let places = scale.width - share(behind, scale.width, scale.top);
    places.saturating_sub(1)
}
