// Each answer of a call that writes bytes as numbers: the refusal, 0 for a result, and the length written or needed.
ghost use Rattle.std.specs.Prelude.{◌≡◌};
ghost use Rattle.saving.specs.Answer.{save_of};
ghost use Rattle.converting.specs.Answer.{convert_of};
ghost use Rattle.field_writing.specs.Answer.{write_of};
ghost use Rattle.gate_writing.specs.Answer.{gates_of};
ghost use Rattle.capi.specs.Numbers.{written_numbers};

use crate::AnswerNumbers;
use crate::in_c::numbered;
use answer_numbers::{SHORT_BUFFER, convert_number, gates_number, save_number};
use converting::ConvertRefusal;
use field_writing::WriteRefusal;
use gate_writing::GatesRefusal;
use plan::{Refusal, fault_number};
use writing::SaveRefusal;

// Of a plan's bytes, and of its text.
impl From<Result<usize, SaveRefusal>> for AnswerNumbers {
    ghost from_gives = { λ answer numbers. numbers ≡ written_numbers (save_of answer) };

    fn from(answer: Result<usize, SaveRefusal>) -> AnswerNumbers {
        let refusal = save_number(answer);
        match answer {
            Ok(size) | Err(SaveRefusal::ShortBuffer(size)) => numbered(refusal, size as u64, 0),
            Err(SaveRefusal::NoPlan) => numbered(refusal, 0, 0),
        }
    }
}

// Of a plan that is refused the offset.
impl From<Result<usize, ConvertRefusal>> for AnswerNumbers {
    ghost from_gives = { λ answer numbers. numbers ≡ written_numbers (convert_of answer) };

    fn from(answer: Result<usize, ConvertRefusal>) -> AnswerNumbers {
        let refusal = convert_number(answer);
        match answer {
            Ok(size) | Err(ConvertRefusal::ShortBuffer(size)) => {
                numbered(refusal, size as u64, 0)
            }
            Err(ConvertRefusal::Refused(Refusal { offset, .. })) => {
                numbered(refusal, offset as u64, 0)
            }
            Err(ConvertRefusal::LongRoute(at)) => numbered(refusal, at as u64, 0),
        }
    }
}

// 21 has the lowest failing port and how many fail.
impl From<Result<usize, GatesRefusal>> for AnswerNumbers {
    ghost from_gives = { λ answer numbers. numbers ≡ written_numbers (gates_of answer) };

    fn from(answer: Result<usize, GatesRefusal>) -> AnswerNumbers {
        let refusal = gates_number(answer);
        match answer {
            Ok(size) | Err(GatesRefusal::ShortBuffer(size)) => numbered(refusal, size as u64, 0),
            Err(GatesRefusal::NoPlan | GatesRefusal::BadDuration | GatesRefusal::BadQueue) => {
                numbered(refusal, 0, 0)
            }
            Err(GatesRefusal::Failing { port, count }) => {
                numbered(refusal, port as u64, count as u64)
            }
        }
    }
}

// Of one field: a value that it refuses has no place.
impl From<Result<usize, WriteRefusal>> for AnswerNumbers {
    ghost from_gives = { λ answer numbers. numbers ≡ written_numbers (write_of answer) };

    fn from(answer: Result<usize, WriteRefusal>) -> AnswerNumbers {
        match answer {
            Ok(size) => numbered(0, size as u64, 0),
            Err(WriteRefusal::Refused(fault)) => numbered(fault_number(fault) as u32, 0, 0),
            Err(WriteRefusal::ShortBuffer(needed)) => numbered(SHORT_BUFFER, needed as u64, 0),
        }
    }
}
