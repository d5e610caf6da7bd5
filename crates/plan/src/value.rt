// What the fields of every kind have in common: tests 4 and 5.

ghost use Rattle.std.specs.Prelude.{◌≡◌, ◌+◌, ◌*◌, ℕ, List, cond, true, length, Some, None};
ghost use Rattle.plan.specs.Layout.{Kind, layout, numbers_size, hops_allowed};
ghost use Rattle.plan.specs.Field.{in_ranges, numbers_at, hops_in, size_ok, value_in};
ghost use Rattle.plan.specs.declared.Field.{Field};
ghost use Rattle.plan.specs.Answer.{field_of, field_read_of};

use crate::layout::HOP_SIZE;
use crate::route::{route_bytes, route_in_range};
use crate::{Fault, Field, FieldAt, Refusal};

// A kind of field, told by what its fields say.
pub(crate) trait Value: Copy {
    ghost kind: { Kind };

    ghost as_field: { Self → Field };

    ghost SIZE: { ℕ };

    // The bytes of a value before its route.
    const SIZE: usize;

    ghost MOST_HOPS: { ℕ };

    // The most ports of the route: 0 where none follows.
    const MOST_HOPS: usize;

    // How many ports a value of this length names, if it may have this length.
    fn hops_by_length(size: usize) -> Option<usize>
        ensures { result ≡ cond (size_ok kind size) (Some (hops_in kind size)) None }
    {
        let hops = size.saturating_sub(Self::SIZE) / HOP_SIZE;
        let allowed = Self::MOST_HOPS.min(1) <= hops && hops <= Self::MOST_HOPS;
        if allowed && size == Self::SIZE + HOP_SIZE * hops {
            Some(hops)
        } else {
            None
        }
    }

    // What a value says that has the length of so many ports.
    fn read(value: &[u8], hops: usize) -> Self
        requires sized { length value.now ≡ numbers_size kind + 2 * hops }
        requires allowed { hops_allowed (layout kind).most_hops hops ≡ true }
        ensures { field_of (as_field result) ≡ record { kind = kind; numbers = numbers_at (layout kind).numbers value.now 0; hops = hops } };

    // Whether each number is in its range; those of the route stand in the value.
    fn in_range(&self) -> bool
        ensures { result ≡ in_ranges (layout kind).numbers (field_of (as_field self.now)).numbers };

    fn field(self) -> Field
        ensures { result ≡ as_field self };

    ghost size_is: { SIZE ≡ numbers_size kind };

    ghost most_is: { MOST_HOPS ≡ (layout kind).most_hops };
}

// A field of this kind with its value: tests 4 and 5.
pub(crate) fn value_of<V: Value>(value: &[u8], at: usize, next: usize) -> Result<FieldAt, Refusal>
    ensures { field_read_of result ≡ value_in V.kind value.now at next }
{
    let Some(hops) = V::hops_by_length(value.len()) else {
        return Err(Refusal {
            fault: Fault::WrongLength,
            offset: at,
        });
    };
    let x = V::read(value, hops);
    if x.in_range() && route_in_range(route_bytes(value, V::SIZE)) {
        Ok(FieldAt {
            field: x.field(),
            next,
        })
    } else {
        Err(Refusal {
            fault: Fault::OutOfRange,
            offset: at,
        })
    }
}
