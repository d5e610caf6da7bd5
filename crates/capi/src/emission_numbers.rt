// The answers of the questions for a bad emission as numbers: the refusal, 0 for a result, and what is told with it.
ghost use Rattle.std.specs.Prelude.{◌≡◌};
ghost use Rattle.emissions.specs.Burst.{burst_of};
ghost use Rattle.emissions.specs.Unsent.{unsent_of};
ghost use Rattle.capi.specs.Emission.{burst_numbers, unsent_numbers, burst_refused, unsent_refused};

use crate::{BurstAnswerNumbers, UnsentAnswerNumbers};
use answer_numbers::{ABSENT_FLOW, BAD_DURATION, NO_PLAN, NOT_CROSSED};
use emissions::{Burst, BurstRefusal, Unsent, UnsentRefusal};

fn burst_refused(refusal: u32) -> BurstAnswerNumbers
    ensures { result ≡ burst_refused refusal }
{
    BurstAnswerNumbers {
        refusal,
        cycle: 0,
        frames: 0,
        instant: 0,
    }
}

// Where the burst has no such frame, the largest number for its instant.
impl From<Result<Burst, BurstRefusal>> for BurstAnswerNumbers {
    ghost from_gives = { λ answer numbers. numbers ≡ burst_numbers (burst_of answer) };

    fn from(answer: Result<Burst, BurstRefusal>) -> BurstAnswerNumbers {
        match answer {
            Ok(burst) => BurstAnswerNumbers {
                refusal: 0,
                cycle: burst.cycle,
                frames: burst.frames,
                instant: burst.instant.unwrap_or(u64::MAX),
            },
            Err(BurstRefusal::NoPlan) => burst_refused(NO_PLAN),
            Err(BurstRefusal::BadDuration) => burst_refused(BAD_DURATION),
            Err(BurstRefusal::BadPort) => burst_refused(NOT_CROSSED),
            Err(BurstRefusal::AbsentFlow) => burst_refused(ABSENT_FLOW),
        }
    }
}

fn unsent_refused(refusal: u32) -> UnsentAnswerNumbers
    ensures { result ≡ unsent_refused refusal }
{
    UnsentAnswerNumbers {
        refusal,
        failing: 0,
        port: 0,
        cycle: 0,
        bits: 0,
        most: 0,
    }
}

// A port of 0 where the duration is admissible.
impl From<Result<Option<Unsent>, UnsentRefusal>> for UnsentAnswerNumbers {
    ghost from_gives = { λ answer numbers. numbers ≡ unsent_numbers (unsent_of answer) };

    fn from(answer: Result<Option<Unsent>, UnsentRefusal>) -> UnsentAnswerNumbers {
        match answer {
            Ok(Some(unsent)) => UnsentAnswerNumbers {
                refusal: 0,
                failing: unsent.failing,
                port: unsent.port,
                cycle: unsent.cycle,
                bits: unsent.bits,
                most: unsent.most,
            },
            Ok(None) => unsent_refused(0),
            Err(UnsentRefusal::NoPlan) => unsent_refused(NO_PLAN),
            Err(UnsentRefusal::BadDuration) => unsent_refused(BAD_DURATION),
        }
    }
}
