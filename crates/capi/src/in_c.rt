// Each answer of the planner as numbers: document 01's refusal, 0 for a result, and what it carries.
ghost use Rattle.std.specs.Prelude.{◌≡◌, ℕ};
ghost use Rattle.plan.specs.Answer.{form_of};
ghost use Rattle.answers.specs.Answer.{refusal_number};
ghost use Rattle.loading.specs.Answer.{load_of};
ghost use Rattle.questions.specs.Answer.{check_of, slack_of, search_of, least_of, margin_safe_of, fixed_point_of, reprice_of};
ghost use Rattle.capi.specs.Numbers.{load_numbers, check_numbers, slack_numbers, search_numbers, steps_numbers, form_by_tag};

use crate::field_numbers::FLOW2;
use crate::{AnswerNumbers, FixedPointAnswerNumbers, SlackAnswerNumbers};
use answer_numbers::{
    check_number, fixed_point_number, least_number, load_number, margin_safe_number,
    reprice_number, slack_number,
};
use loading::Loaded;
use plan::{Form, Refusal};
use questions::{
    CheckRefusal, FixedPoint, FixedPointRefusal, RepriceRefusal, SearchRefusal, SlackRefusal,
};

pub(crate) fn numbered(refusal: u32, first: u64, second: u64) -> AnswerNumbers
    ensures { result ≡ (record { refusal = refusal; first = first; second = second }) }
{
    AnswerNumbers {
        refusal,
        first,
        second,
    }
}

impl From<Result<Loaded, Refusal>> for AnswerNumbers {
    ghost from_gives = { λ answer numbers. numbers ≡ load_numbers (load_of answer) };

    fn from(answer: Result<Loaded, Refusal>) -> AnswerNumbers {
        let refusal = load_number(answer);
        match answer {
            Ok(Loaded { ports, flows }) => numbered(refusal, ports as u64, flows as u64),
            Err(Refusal { offset, .. }) => numbered(refusal, offset as u64, 0),
        }
    }
}

impl From<Result<(), CheckRefusal>> for AnswerNumbers {
    ghost from_gives = { λ answer numbers. numbers ≡ check_numbers (check_of answer) };

    fn from(answer: Result<(), CheckRefusal>) -> AnswerNumbers {
        let refusal = check_number(answer);
        match answer {
            Ok(()) => numbered(refusal, 0, 0),
            Err(CheckRefusal::NoPlan | CheckRefusal::BadDuration) => numbered(refusal, 0, 0),
            Err(CheckRefusal::Failing { port, count }) => {
                numbered(refusal, port as u64, count as u64)
            }
        }
    }
}

impl From<Result<i64, SlackRefusal>> for SlackAnswerNumbers {
    ghost from_gives = { λ answer numbers. numbers ≡ slack_numbers (slack_of answer) };

    fn from(answer: Result<i64, SlackRefusal>) -> SlackAnswerNumbers {
        SlackAnswerNumbers {
            refusal: slack_number(answer),
            slack: answer.unwrap_or(0),
        }
    }
}

// For the search whose answer has this number.
fn search_in_c(refusal: u32, answer: Result<u64, SearchRefusal>) -> AnswerNumbers
    ensures { (failing : ℕ) → refusal ≡ refusal_number (search_of failing answer) → result ≡ search_numbers (search_of failing answer) }
{
    match answer {
        Ok(duration) => numbered(refusal, duration, 0),
        Err(SearchRefusal::NoPlan | SearchRefusal::ShortScratch) => numbered(refusal, 0, 0),
        Err(SearchRefusal::Failing { port, count }) => {
            numbered(refusal, port as u64, count as u64)
        }
    }
}

pub(crate) fn least_in_c(answer: Result<u64, SearchRefusal>) -> AnswerNumbers
    ensures { result ≡ search_numbers (least_of answer) }
{
    search_in_c(least_number(answer), answer)
}

pub(crate) fn margin_safe_in_c(answer: Result<u64, SearchRefusal>) -> AnswerNumbers
    ensures { result ≡ search_numbers (margin_safe_of answer) }
{
    search_in_c(margin_safe_number(answer), answer)
}

pub(crate) fn stepped(refusal: u32, first: u64, second: u64, steps: u64) -> FixedPointAnswerNumbers
    ensures { result ≡ (record { refusal = refusal; first = first; second = second; steps = steps }) }
{
    FixedPointAnswerNumbers {
        refusal,
        first,
        second,
        steps,
    }
}

impl From<Result<FixedPoint, FixedPointRefusal>> for FixedPointAnswerNumbers {
    ghost from_gives = { λ answer numbers. numbers ≡ steps_numbers (fixed_point_of answer) };

    fn from(answer: Result<FixedPoint, FixedPointRefusal>) -> FixedPointAnswerNumbers {
        let refusal = fixed_point_number(answer);
        match answer {
            Ok(FixedPoint { duration, steps }) => stepped(refusal, duration, 0, steps),
            Err(FixedPointRefusal::NoPlan | FixedPointRefusal::BadStart) => {
                stepped(refusal, 0, 0, 0)
            }
            Err(FixedPointRefusal::Failing { port, count, steps }) => {
                stepped(refusal, port as u64, count as u64, steps)
            }
            Err(FixedPointRefusal::Unfinished { duration, steps }) => {
                stepped(refusal, duration, 0, steps)
            }
        }
    }
}

impl From<Result<(), RepriceRefusal>> for AnswerNumbers {
    ghost from_gives = { λ answer numbers. numbers ≡ check_numbers (reprice_of answer) };

    // No case carries another number.
    fn from(answer: Result<(), RepriceRefusal>) -> AnswerNumbers {
        numbered(reprice_number(answer), 0, 0)
    }
}

// The form of which a flow's tag is; any other number counts as the older one's.
pub(crate) fn form_by_tag(tag: u32) -> Form
    ensures { form_of result ≡ form_by_tag tag }
{
    if tag == FLOW2 {
        Form::Newer
    } else {
        Form::Older
    }
}
