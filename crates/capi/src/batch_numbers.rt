// Each answer of a batch's calls as numbers, beside the batch that the call leaves.
ghost use Rattle.std.specs.Prelude.{◌≡◌};
ghost use Rattle.batching.specs.Answer.{place_of, serve_of, collect_of};
ghost use Rattle.batching.specs.Slots.{batch_of};
ghost use Rattle.capi.specs.Numbers.{load_numbers, steps_numbers, served_number};

use crate::in_c::{numbered, stepped};
use crate::{
    AnswerNumbers, CollectOutcomeNumbers, FixedPointAnswerNumbers, PlaceOutcomeNumbers,
    ServeOutcomeNumbers,
};
use answer_numbers::{collect_number, place_number};
use batching::{CollectOutcome, CollectRefusal, PlaceOutcome, PlaceRefusal, ServeOutcome};
use loading::Loaded;
use plan::Refusal;
use questions::FixedPoint;

// What stands for no slot.
const IDLE: u64 = batching::SLOTS;

impl From<Result<Loaded, PlaceRefusal>> for AnswerNumbers {
    ghost from_gives = { λ answer numbers. numbers ≡ load_numbers (place_of answer) };

    fn from(answer: Result<Loaded, PlaceRefusal>) -> AnswerNumbers {
        let refusal = place_number(answer);
        match answer {
            Ok(Loaded { ports, flows }) => numbered(refusal, ports as u64, flows as u64),
            Err(PlaceRefusal::NoSlot | PlaceRefusal::Occupied) => numbered(refusal, 0, 0),
            Err(PlaceRefusal::Refused(Refusal { offset, .. })) => {
                numbered(refusal, offset as u64, 0)
            }
        }
    }
}

impl From<Result<FixedPoint, CollectRefusal>> for FixedPointAnswerNumbers {
    ghost from_gives = { λ answer numbers. numbers ≡ steps_numbers (collect_of answer) };

    fn from(answer: Result<FixedPoint, CollectRefusal>) -> FixedPointAnswerNumbers {
        let refusal = collect_number(answer);
        match answer {
            Ok(FixedPoint { duration, steps }) => stepped(refusal, duration, 0, steps),
            Err(CollectRefusal::Failing { port, count, steps }) => {
                stepped(refusal, port as u64, count as u64, steps)
            }
            Err(CollectRefusal::NoPlan | CollectRefusal::BadStart) => stepped(refusal, 0, 0, 0),
            Err(CollectRefusal::NoSlot | CollectRefusal::Unanswered) => {
                stepped(refusal, 0, 0, 0)
            }
        }
    }
}

impl From<PlaceOutcome> for PlaceOutcomeNumbers {
    ghost from_gives = { λ outcome numbers. (batch_of numbers.batch ≡ batch_of outcome.batch) × (numbers.answer ≡ load_numbers (place_of outcome.answer)) };

    fn from(outcome: PlaceOutcome) -> PlaceOutcomeNumbers {
        PlaceOutcomeNumbers {
            batch: outcome.batch,
            answer: AnswerNumbers::from(outcome.answer),
        }
    }
}

impl From<ServeOutcome> for ServeOutcomeNumbers {
    ghost from_gives = { λ outcome numbers. (batch_of numbers.batch ≡ batch_of outcome.batch) × (numbers.slot ≡ served_number (serve_of outcome.answer)) };

    fn from(outcome: ServeOutcome) -> ServeOutcomeNumbers {
        ServeOutcomeNumbers {
            batch: outcome.batch,
            slot: outcome.answer.unwrap_or(IDLE),
        }
    }
}

impl From<CollectOutcome> for CollectOutcomeNumbers {
    ghost from_gives = { λ outcome numbers. (batch_of numbers.batch ≡ batch_of outcome.batch) × (numbers.answer ≡ steps_numbers (collect_of outcome.answer)) };

    fn from(outcome: CollectOutcome) -> CollectOutcomeNumbers {
        CollectOutcomeNumbers {
            batch: outcome.batch,
            answer: FixedPointAnswerNumbers::from(outcome.answer),
        }
    }
}
