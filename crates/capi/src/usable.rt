// Each answer that names spans as numbers: the refusal, 0 for a result, and a span's two durations or how many spans there are.
ghost use Rattle.std.specs.Prelude.{◌≡◌};
ghost use Rattle.questions.specs.SpanAnswer.{span_answer_of, spans_answer_of};
ghost use Rattle.capi.specs.Numbers.{search_numbers, span_numbers};

use crate::AnswerNumbers;
use crate::in_c::numbered;
use answer_numbers::{span_number, spans_number};
use questions::{SpanRecord, SpanRefusal, SpansRefusal};

impl From<Result<SpanRecord, SpanRefusal>> for AnswerNumbers {
    ghost from_gives = { λ answer numbers. numbers ≡ span_numbers (span_answer_of answer) };

    fn from(answer: Result<SpanRecord, SpanRefusal>) -> AnswerNumbers {
        let refusal = span_number(answer);
        match answer {
            Ok(span) => numbered(refusal, span.first, span.last),
            Err(_) => numbered(refusal, 0, 0),
        }
    }
}

// 13 has how many there are, as a result has.
impl From<Result<u64, SpansRefusal>> for AnswerNumbers {
    ghost from_gives = { λ answer numbers. numbers ≡ search_numbers (spans_answer_of answer) };

    fn from(answer: Result<u64, SpansRefusal>) -> AnswerNumbers {
        let refusal = spans_number(answer);
        match answer {
            Ok(count) | Err(SpansRefusal::ShortList { count }) => numbered(refusal, count, 0),
            Err(SpansRefusal::NoPlan) => numbered(refusal, 0, 0),
        }
    }
}
