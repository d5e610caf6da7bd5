// A plan's text for C, and the numbers of what is refused in it.
ghost use Rattle.std.specs.Prelude.{◌≡◌};
ghost use Rattle.text_coding.specs.Encode.{encode_answer, encode_leaves};
ghost use Rattle.text_coding.specs.Answer.{encoded_of};
ghost use Rattle.capi.specs.Text.{fault_number, item_number, encode_numbers, length_numbers};

use crate::EncodeAnswerNumbers;
use answer_numbers::SHORT_BUFFER;
use plan_text::grammar::{Fault, Item};
use text_coding::{EncodeRefusal, encode_text};

const BAD_TEXT: u32 = 30;

// The numbers of the C interface.
fn fault_in_c(fault: Fault) -> u32
    ensures { result ≡ fault_number fault }
{
    match fault {
        Fault::Word => 1,
        Fault::Number => 2,
        Fault::Range => 3,
        Fault::Again => 4,
        Fault::Twice => 5,
        Fault::Incomplete => 6,
        Fault::Absent => 7,
        Fault::Size => 8,
    }
}

fn item_in_c(item: Item) -> u32
    ensures { result ≡ item_number item }
{
    match item {
        Item::Guard => 1,
        Item::Top => 2,
        Item::Port => 3,
        Item::Rate => 4,
        Item::Blocker => 5,
        Item::Extra => 6,
        Item::Flow => 7,
        Item::Period => 8,
        Item::Count => 9,
        Item::Length => 10,
        Item::Jitter => 11,
        Item::Drift => 12,
        Item::Timing => 13,
        Item::Sync => 14,
        Item::Format => 15,
        Item::Route => 16,
        Item::Hops => 17,
        Item::First => 18,
        Item::End => 19,
    }
}

fn sized(refusal: u32, size: usize) -> EncodeAnswerNumbers
    ensures { result ≡ length_numbers refusal size }
{
    EncodeAnswerNumbers {
        refusal,
        line: 0,
        fault: 0,
        item: 0,
        value: size as u64,
    }
}

impl From<Result<usize, EncodeRefusal>> for EncodeAnswerNumbers {
    ghost from_gives = { λ answer numbers. numbers ≡ encode_numbers (encoded_of answer) };

    fn from(answer: Result<usize, EncodeRefusal>) -> EncodeAnswerNumbers {
        match answer {
            Ok(size) => sized(0, size),
            Err(EncodeRefusal::Short(size)) => sized(SHORT_BUFFER, size),
            Err(EncodeRefusal::Refused(refused)) => EncodeAnswerNumbers {
                refusal: BAD_TEXT,
                line: refused.line,
                fault: fault_in_c(refused.fault),
                item: item_in_c(refused.item),
                value: refused.value,
            },
        }
    }
}

// The strict bytes of the plan that a text says.
#[unsafe(no_mangle)]
pub extern "C" fn cp_encode_bytes(text: &[u8], buffer: &mut [u8]) -> EncodeAnswerNumbers
    ensures { (result ≡ encode_numbers (encode_answer text.now buffer.old))
        × (buffer.new ≡ encode_leaves text.now buffer.old) }
{
    EncodeAnswerNumbers::from(encode_text(text, buffer))
}
