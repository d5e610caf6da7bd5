// The bytes of one field: tested as a plan's reader tests them, and copied where they pass.
ghost use Rattle.std.specs.Prelude.{◌≡◌};
ghost use Rattle.plan.specs.Answer.{form_of};
ghost use Rattle.writing.specs.Answer.{written_answer};
ghost use Rattle.writing.specs.Laid.{laid};
ghost use Rattle.field_writing.specs.Answer.{write_of};
ghost use Rattle.field_writing.specs.Writes.{WritesBytes};

use crate::WriteRefusal;
use plan::layout::route_start;
use plan::read::field_at;
use plan::route::{route_bytes, route_repeats};
use plan::split::field_value;
use plan::{Fault, Form};
use writing::number::put_bytes;
use writing::room::has_room;

// Bytes over the buffer's first ones, or 13 where it has no room for them.
fn put_whole(field: &[u8], buffer: &mut [u8]) -> Result<usize, WriteRefusal>
    ensures { (write_of result ≡ written_answer field.now buffer.old)
        × (buffer.new ≡ laid field.now buffer.old) }
{
    let needed = field.len();
    if !has_room(buffer.len(), needed) {
        return Err(WriteRefusal::ShortBuffer(needed));
    }
    put_bytes(buffer, field);
    Ok(needed)
}

// The bytes of a field of this form: tests 2 to 5 and 7, then 13.
pub(crate) fn write_field(
    form: Form,
    field: &[u8],
    buffer: &mut [u8],
) -> Result<usize, WriteRefusal>
    ensures { WritesBytes (form_of form) field.now buffer.old (write_of result) buffer.new }
{
    let read = field_at(form, field, 0)?;
    let route = route_bytes(field_value(field, 0), route_start(read.field));
    if route_repeats(route) {
        return Err(WriteRefusal::Refused(Fault::RepeatedPort));
    }
    put_whole(field, buffer)
}
