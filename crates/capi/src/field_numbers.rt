// A field of a plan as numbers: its tag, and what it says.
ghost use Rattle.std.specs.Prelude.{◌≡◌, [], ◌∷◌, ◌++◌};
ghost use Rattle.plan.specs.Layout.{layout};
ghost use Rattle.plan.specs.Answer.{field_of, field_read_of};
ghost use Rattle.capi.specs.Numbers.{field_numbers, six};

use crate::FieldReadNumbers;
use plan::{Field, FieldAt, Refusal};

// The tags of the fields.
const HEADER: u32 = plan::layout::HEADER_TAG as u32;

const PORT: u32 = plan::layout::PORT_TAG as u32;

const FLOW: u32 = plan::layout::FLOW_TAG as u32;

const EXTRA: u32 = plan::layout::EXTRA_TAG as u32;

const JITTER: u32 = plan::layout::JITTER_TAG as u32;

const CLOCK: u32 = plan::layout::CLOCK_TAG as u32;

const HEADER2: u32 = plan::layout::HEADER2_TAG as u32;

const PORT2: u32 = plan::layout::PORT2_TAG as u32;

pub(crate) const FLOW2: u32 = plan::layout::FLOW2_TAG as u32;

fn tag_in_c(field: Field) -> u32
    ensures { result ≡ (layout (field_of field).kind).tag }
{
    match field {
        Field::Header(_) => HEADER,
        Field::Port(_) => PORT,
        Field::Flow(_) => FLOW,
        Field::Extra(_) => EXTRA,
        Field::Jitter(_) => JITTER,
        Field::Clock(_) => CLOCK,
        Field::Header2(_) => HEADER2,
        Field::Port2(_) => PORT2,
        Field::Flow2(_) => FLOW2,
    }
}

// Its numbers, and behind them how many ports its route has.
fn numbers_in_c(field: Field) -> [u64; 6]
    ensures { result ≡ six ((field_of field).numbers ++ ((field_of field).hops ∷ [])) }
{
    match field {
        Field::Header(h) => [h.guard as u64, h.top as u64, 0, 0, 0, 0],
        Field::Port(p) => [p.number as u64, p.rate as u64, p.blocking as u64, 0, 0, 0],
        Field::Flow(f) => [
            f.number as u64,
            f.period as u64,
            f.count as u64,
            f.length as u64,
            f.hops as u64,
            0,
        ],
        Field::Extra(e) => [e.number as u64, e.extra as u64, 0, 0, 0, 0],
        Field::Jitter(j) => [j.number as u64, j.jitter as u64, 0, 0, 0, 0],
        Field::Clock(k) => [
            k.drift as u64,
            k.timing_jitter as u64,
            k.sync_error as u64,
            0,
            0,
            0,
        ],
        Field::Header2(h) => [
            h.guard as u64,
            h.top as u64,
            h.drift as u64,
            h.timing_jitter as u64,
            h.sync_error as u64,
            0,
        ],
        Field::Port2(p) => [
            p.number as u64,
            p.rate as u64,
            p.blocking as u64,
            p.extra as u64,
            0,
            0,
        ],
        Field::Flow2(f) => [
            f.number as u64,
            f.period as u64,
            f.count as u64,
            f.length as u64,
            f.jitter as u64,
            f.hops as u64,
        ],
    }
}

impl From<Result<FieldAt, Refusal>> for FieldReadNumbers {
    ghost from_gives = { λ reading numbers. numbers ≡ field_numbers (field_read_of reading) };

    fn from(reading: Result<FieldAt, Refusal>) -> FieldReadNumbers {
        match reading {
            Ok(FieldAt { field, next }) => FieldReadNumbers {
                refusal: 0,
                tag: tag_in_c(field),
                offset: next as u64,
                numbers: numbers_in_c(field),
            },
            Err(Refusal { fault, offset }) => FieldReadNumbers {
                refusal: plan::fault_number(fault) as u32,
                tag: 0,
                offset: offset as u64,
                numbers: [0; 6],
            },
        }
    }
}
