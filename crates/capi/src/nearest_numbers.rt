// The answer that names the nearest durations as numbers: the refusal, 0 for a result, and two durations, 0 for none.
ghost use Rattle.std.specs.Prelude.{◌≡◌};
ghost use Rattle.questions.specs.Nearest.{nearest_of};
ghost use Rattle.capi.specs.Numbers.{nearest_numbers};

use crate::AnswerNumbers;
use crate::in_c::numbered;
use answer_numbers::nearest_number;
use questions::{Nearest, NearestRefusal};

impl From<Result<Nearest, NearestRefusal>> for AnswerNumbers {
    ghost from_gives = { λ answer numbers. numbers ≡ nearest_numbers (nearest_of answer) };

    fn from(answer: Result<Nearest, NearestRefusal>) -> AnswerNumbers {
        let refusal = nearest_number(answer);
        match answer {
            Ok(Nearest { below, above }) => {
                numbered(refusal, below.unwrap_or(0), above.unwrap_or(0))
            }
            Err(_) => numbered(refusal, 0, 0),
        }
    }
}
