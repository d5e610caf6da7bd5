// The papers' number of each answer, 0 for a result.
ghost use Rattle.std.specs.Prelude.{◌≡◌};
ghost use Rattle.answers.specs.Answer.{refusal_number};
ghost use Rattle.loading.specs.Answer.{load_of};
ghost use Rattle.questions.specs.Answer.{check_of, slack_of, search_of, least_of, margin_safe_of, fixed_point_of, reprice_of};
ghost use Rattle.questions.specs.SpanAnswer.{span_answer_of, spans_answer_of};
ghost use Rattle.questions.specs.Nearest.{nearest_of};
ghost use Rattle.saving.specs.Answer.{save_of};
ghost use Rattle.converting.specs.Answer.{convert_of};
ghost use Rattle.gate_writing.specs.Answer.{gates_of};
ghost use Rattle.batching.specs.Answer.{place_of, collect_of};
ghost use Rattle.answer_numbers.specs.Number.{number_by};

use crate::refusals::Numbered;
use batching::{CollectRefusal, PlaceRefusal};
use converting::ConvertRefusal;
use gate_writing::GatesRefusal;
use loading::Loaded;
use plan::Refusal;
use questions::{
    CheckRefusal, FixedPoint, FixedPointRefusal, Nearest, NearestRefusal, RepriceRefusal,
    SearchRefusal, SlackRefusal, SpanRecord, SpanRefusal, SpansRefusal,
};
use writing::SaveRefusal;

pub const BAD_DURATION: u32 = 10;

pub(crate) const SHORT_SCRATCH: u32 = 11;

pub const SHORT_BUFFER: u32 = 13;

pub(crate) const BAD_SLOT: u32 = 15;

pub(crate) const LONG_ROUTE: u32 = 16;

pub(crate) const BAD_LENGTH: u32 = 17;

pub(crate) const BAD_QUEUE: u32 = 18;

pub const NO_PLAN: u32 = 20;

pub(crate) const NOT_ADMISSIBLE: u32 = 21;

pub(crate) const NO_LEAST: u32 = 22;

const NO_MARGIN_SAFE: u32 = 23;

pub const NOT_CROSSED: u32 = 24;

pub(crate) const NO_SPAN: u32 = 25;

pub(crate) const UNFINISHED: u32 = 26;

pub(crate) const OCCUPIED: u32 = 27;

pub(crate) const UNANSWERED: u32 = 28;

pub const ABSENT_FLOW: u32 = 29;

fn number_of<T: Drop, R: Numbered>(answer: Result<T, R>) -> u32
    ensures { result ≡ number_by R.number_is answer }
{
    match answer {
        Ok(_) => 0,
        Err(refusal) => refusal.number(),
    }
}

pub fn load_number(answer: Result<Loaded, Refusal>) -> u32
    ensures { result ≡ refusal_number (load_of answer) }
{
    number_of(answer)
}

pub fn check_number(answer: Result<(), CheckRefusal>) -> u32
    ensures { result ≡ refusal_number (check_of answer) }
{
    number_of(answer)
}

pub fn slack_number(answer: Result<i64, SlackRefusal>) -> u32
    ensures { result ≡ refusal_number (slack_of answer) }
{
    number_of(answer)
}

// Where the failing ports at top come with this refusal: the same refusal of the two searches has two numbers.
fn search_number(failing: u32, answer: Result<u64, SearchRefusal>) -> u32
    ensures { result ≡ refusal_number (search_of failing answer) }
{
    match answer {
        Ok(_) => 0,
        Err(SearchRefusal::NoPlan) => NO_PLAN,
        Err(SearchRefusal::ShortScratch) => SHORT_SCRATCH,
        Err(SearchRefusal::Failing { .. }) => failing,
    }
}

pub fn least_number(answer: Result<u64, SearchRefusal>) -> u32
    ensures { result ≡ refusal_number (least_of answer) }
{
    search_number(NO_LEAST, answer)
}

pub fn margin_safe_number(answer: Result<u64, SearchRefusal>) -> u32
    ensures { result ≡ refusal_number (margin_safe_of answer) }
{
    search_number(NO_MARGIN_SAFE, answer)
}

pub fn fixed_point_number(answer: Result<FixedPoint, FixedPointRefusal>) -> u32
    ensures { result ≡ refusal_number (fixed_point_of answer) }
{
    number_of(answer)
}

pub fn reprice_number(answer: Result<(), RepriceRefusal>) -> u32
    ensures { result ≡ refusal_number (reprice_of answer) }
{
    number_of(answer)
}

pub fn save_number(answer: Result<usize, SaveRefusal>) -> u32
    ensures { result ≡ refusal_number (save_of answer) }
{
    number_of(answer)
}

pub fn convert_number(answer: Result<usize, ConvertRefusal>) -> u32
    ensures { result ≡ refusal_number (convert_of answer) }
{
    number_of(answer)
}

pub fn gates_number(answer: Result<usize, GatesRefusal>) -> u32
    ensures { result ≡ refusal_number (gates_of answer) }
{
    number_of(answer)
}

pub fn place_number(answer: Result<Loaded, PlaceRefusal>) -> u32
    ensures { result ≡ refusal_number (place_of answer) }
{
    number_of(answer)
}

pub fn collect_number(answer: Result<FixedPoint, CollectRefusal>) -> u32
    ensures { result ≡ refusal_number (collect_of answer) }
{
    number_of(answer)
}

pub fn span_number(answer: Result<SpanRecord, SpanRefusal>) -> u32
    ensures { result ≡ refusal_number (span_answer_of answer) }
{
    number_of(answer)
}

pub fn spans_number(answer: Result<u64, SpansRefusal>) -> u32
    ensures { result ≡ refusal_number (spans_answer_of answer) }
{
    number_of(answer)
}

pub fn nearest_number(answer: Result<Nearest, NearestRefusal>) -> u32
    ensures { result ≡ refusal_number (nearest_of answer) }
{
    number_of(answer)
}
