// Reads a plan's text from standard input and writes the plan's strict bytes to standard output.
#![tactic(auto)]

ghost use Rattle.std.specs.Prelude.{length};
ghost use Rattle.text_coding.specs.Answer.{Inside};

use streams::{Unheld, complain, finish, read_input};
use text_coding::{EncodeRefusal, encode_text};
use text_refusals::Told;

// One byte more than a text may have: a longer input is read no further.
const ROOM: usize = plan_text::MAX_TEXT + 1;

fn say_encoded(rt: HostRuntime, answer: Result<usize, EncodeRefusal>, buffer: &[u8])
    requires { Inside (length buffer.now) answer }
{
    match answer {
        Ok(size) => finish(&rt, rt.write_all(&buffer[..size])),
        Err(EncodeRefusal::Short(size)) => {
            complain(
                &rt,
                format_args!("the plan has {size} bytes: at most 16384"),
            );
        }
        Err(EncodeRefusal::Refused(refusal)) => complain(&rt, Told(refusal)),
    }
}

// A plan has no more bytes than the buffer.
fn encode(rt: HostRuntime, text: &[u8]) {
    let mut buffer = [0u8; loading::MAX_BYTES];
    let answer = encode_text(text, &mut buffer);
    say_encoded(rt, answer, &buffer);
}

fn main(rt: HostRuntime) {
    let mut input = [0u8; ROOM];
    match read_input(&mut rt.stdin(), &mut input) {
        Ok(n) => encode(rt, &input[..n]),
        Err(_) => complain(&rt, Unheld::Unreadable),
    }
}
