// The papers' number of each refusal.
ghost use Rattle.std.specs.Prelude.{◌≡◌, ℕ, Err};
ghost use Rattle.answers.specs.Answer.{refusal_number};
ghost use Rattle.loading.specs.Answer.{load_of};
ghost use Rattle.questions.specs.Answer.{check_of, slack_of, fixed_point_of, reprice_of};
ghost use Rattle.questions.specs.SpanAnswer.{span_answer_of, spans_answer_of};
ghost use Rattle.questions.specs.Nearest.{nearest_of};
ghost use Rattle.saving.specs.Answer.{save_of};
ghost use Rattle.converting.specs.Answer.{convert_of};
ghost use Rattle.gate_writing.specs.Answer.{gates_of};
ghost use Rattle.batching.specs.Answer.{place_of, collect_of};

use crate::number::{
    ABSENT_FLOW, BAD_DURATION, BAD_LENGTH, BAD_QUEUE, BAD_SLOT, LONG_ROUTE, NO_LEAST, NO_PLAN,
    NO_SPAN, NOT_ADMISSIBLE, NOT_CROSSED, OCCUPIED, SHORT_BUFFER, SHORT_SCRATCH, UNANSWERED,
    UNFINISHED,
};
use batching::{CollectRefusal, PlaceRefusal};
use converting::ConvertRefusal;
use gate_writing::GatesRefusal;
use plan::{Refusal, fault_number};
use questions::{
    CheckRefusal, FixedPointRefusal, NearestRefusal, RepriceRefusal, SlackRefusal, SpanRefusal,
    SpansRefusal,
};
use writing::SaveRefusal;

// Why a call refuses, with a number of its own.
pub(crate) trait Numbered {
    ghost number_is: { Self → ℕ };

    fn number(self) -> u32
        ensures { result ≡ number_is self };
}

impl Numbered for Refusal {
    ghost number_is = { λ r. refusal_number (load_of (Err r)) };

    fn number(self) -> u32 {
        fault_number(self.fault) as u32
    }
}

impl Numbered for CheckRefusal {
    ghost number_is = { λ r. refusal_number (check_of (Err r)) };

    fn number(self) -> u32 {
        match self {
            CheckRefusal::NoPlan => NO_PLAN,
            CheckRefusal::BadDuration => BAD_DURATION,
            CheckRefusal::Failing { .. } => NOT_ADMISSIBLE,
        }
    }
}

impl Numbered for SlackRefusal {
    ghost number_is = { λ r. refusal_number (slack_of (Err r)) };

    fn number(self) -> u32 {
        match self {
            SlackRefusal::NoPlan => NO_PLAN,
            SlackRefusal::BadDuration => BAD_DURATION,
            SlackRefusal::NotCrossed => NOT_CROSSED,
        }
    }
}

impl Numbered for FixedPointRefusal {
    ghost number_is = { λ r. refusal_number (fixed_point_of (Err r)) };

    fn number(self) -> u32 {
        match self {
            FixedPointRefusal::NoPlan => NO_PLAN,
            FixedPointRefusal::BadStart => BAD_DURATION,
            FixedPointRefusal::Failing { .. } => NO_LEAST,
            FixedPointRefusal::Unfinished { .. } => UNFINISHED,
        }
    }
}

impl Numbered for RepriceRefusal {
    ghost number_is = { λ r. refusal_number (reprice_of (Err r)) };

    fn number(self) -> u32 {
        match self {
            RepriceRefusal::NoPlan => NO_PLAN,
            RepriceRefusal::BadDuration => BAD_DURATION,
            RepriceRefusal::ShortList => SHORT_SCRATCH,
            RepriceRefusal::BadLength => BAD_LENGTH,
            RepriceRefusal::AbsentFlow => ABSENT_FLOW,
        }
    }
}

impl Numbered for SaveRefusal {
    ghost number_is = { λ r. refusal_number (save_of (Err r)) };

    fn number(self) -> u32 {
        match self {
            SaveRefusal::NoPlan => NO_PLAN,
            SaveRefusal::ShortBuffer(_) => SHORT_BUFFER,
        }
    }
}

impl Numbered for ConvertRefusal {
    ghost number_is = { λ r. refusal_number (convert_of (Err r)) };

    fn number(self) -> u32 {
        match self {
            ConvertRefusal::Refused(refusal) => refusal.number(),
            ConvertRefusal::LongRoute(_) => LONG_ROUTE,
            ConvertRefusal::ShortBuffer(_) => SHORT_BUFFER,
        }
    }
}

impl Numbered for GatesRefusal {
    ghost number_is = { λ r. refusal_number (gates_of (Err r)) };

    fn number(self) -> u32 {
        match self {
            GatesRefusal::NoPlan => NO_PLAN,
            GatesRefusal::BadDuration => BAD_DURATION,
            GatesRefusal::Failing { .. } => NOT_ADMISSIBLE,
            GatesRefusal::BadQueue => BAD_QUEUE,
            GatesRefusal::ShortBuffer(_) => SHORT_BUFFER,
        }
    }
}

impl Numbered for PlaceRefusal {
    ghost number_is = { λ r. refusal_number (place_of (Err r)) };

    fn number(self) -> u32 {
        match self {
            PlaceRefusal::NoSlot => BAD_SLOT,
            PlaceRefusal::Occupied => OCCUPIED,
            PlaceRefusal::Refused(refusal) => refusal.number(),
        }
    }
}

impl Numbered for CollectRefusal {
    ghost number_is = { λ r. refusal_number (collect_of (Err r)) };

    fn number(self) -> u32 {
        match self {
            CollectRefusal::Failing { .. } => NO_LEAST,
            CollectRefusal::NoPlan => NO_PLAN,
            CollectRefusal::BadStart => BAD_DURATION,
            CollectRefusal::NoSlot => BAD_SLOT,
            CollectRefusal::Unanswered => UNANSWERED,
        }
    }
}

impl Numbered for SpanRefusal {
    ghost number_is = { λ r. refusal_number (span_answer_of (Err r)) };

    fn number(self) -> u32 {
        match self {
            SpanRefusal::NoPlan => NO_PLAN,
            SpanRefusal::BadDuration => BAD_DURATION,
            SpanRefusal::NoSpan => NO_SPAN,
        }
    }
}

impl Numbered for SpansRefusal {
    ghost number_is = { λ r. refusal_number (spans_answer_of (Err r)) };

    fn number(self) -> u32 {
        match self {
            SpansRefusal::NoPlan => NO_PLAN,
            SpansRefusal::ShortList { .. } => SHORT_BUFFER,
        }
    }
}

impl Numbered for NearestRefusal {
    ghost number_is = { λ r. refusal_number (nearest_of (Err r)) };

    fn number(self) -> u32 {
        match self {
            NearestRefusal::NoPlan => NO_PLAN,
            NearestRefusal::BadDuration => BAD_DURATION,
        }
    }
}
