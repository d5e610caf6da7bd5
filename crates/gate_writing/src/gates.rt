// The gate control list of a duration, for two queues, written into a lent buffer.
ghost use Rattle.tables.specs.Lent.{plan_lent};
ghost use Rattle.gate_writing.specs.Answer.{gates_of};
ghost use Rattle.gate_writing.specs.Outcome.{Gated};

use crate::GatesRefusal;
use crate::list::{list_size, put_list};
use crate::states::queues_ok;
use questions::check_tables;
use tables::Lent;
use writing::room::has_room;

// The length written; 20, 10 and 21 as for the plain question, 18 for queues that are not two of the eight, 13 for a buffer that is
// too short. A refusal writes nothing.
pub fn gates_tables(
    lent: Lent,
    duration: u64,
    even: u64,
    odd: u64,
    buffer: &mut [u8],
) -> Result<usize, GatesRefusal>
    ensures { Gated (plan_lent lent.entry) duration even odd buffer.old (gates_of result) buffer.new }
{
    check_tables(lent, duration)?;
    if !queues_ok(even, odd) {
        return Err(GatesRefusal::BadQueue);
    }
    let needed = list_size(lent.guard, duration);
    if !has_room(buffer.len(), needed) {
        return Err(GatesRefusal::ShortBuffer(needed));
    }
    put_list(buffer, lent.guard, duration, even, odd);
    Ok(needed)
}
