// Numbers that are given wider than they are written, so that one that does not fit is refused and never cut.
ghost use Rattle.std.specs.Prelude.{◌≡◌};
ghost use Rattle.field_writing.specs.Narrow.{narrowed};

// The widest number of 2 bytes, which no number of a field may be.
const WIDEST: u16 = 65_535;

// A number of 2 bytes: the widest in place of a wider one.
pub(crate) fn narrow(n: u32) -> u16
    ensures { result ≡ narrowed n }
{
    u16::try_from(n).unwrap_or(WIDEST)
}
