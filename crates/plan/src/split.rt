// A field's head, and its value as a part of the plan.

ghost use Rattle.std.specs.Prelude.{◌≡◌};
ghost use Rattle.plan.specs.Bytes.{part_at};
ghost use Rattle.plan.specs.Field.{head_at};
ghost use Rattle.plan.specs.Answer.{head_of};

use crate::Head;
use crate::layout::{HEAD_SIZE, SIZE_AT};
use crate::number::be16;

// The head of the field at this offset, or none where the plan does not hold the whole field.
pub fn split_head(plan: &[u8], at: usize) -> Option<Head>
    ensures { head_of result ≡ head_at plan.now at }
{
    let left = plan.len().checked_sub(at)?;
    if left < HEAD_SIZE {
        return None;
    }
    let size = be16(plan, at + SIZE_AT) as usize;
    if left - HEAD_SIZE < size {
        return None;
    }
    Some(Head {
        tag: plan[at],
        size,
    })
}

// The value of the field at this offset, a part of the plan; empty where the plan does not hold the whole field.
pub fn field_value(plan: &[u8], at: usize) -> &[u8]
    ensures { result.now ≡ part_at plan.now at }
{
    match split_head(plan, at) {
        Some(head) => {
            let start = at + HEAD_SIZE;
            let end = start + head.size;
            &plan[start..end]
        }
        None => &plan[..0],
    }
}
