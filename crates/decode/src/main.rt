// Reads a plan of either form from standard input and writes it as text to standard output.
#![tactic(auto)]

ghost use Rattle.std.specs.Prelude.{◌≤◌, length};
ghost use Rattle.cqf.specs.Form.{form_from};
ghost use Rattle.plan_text.specs.Print.{text_of};
ghost use Rattle.plan_text.specs.Text.{max_text};
ghost use Rattle.tables.specs.Tables.{plan_of};
ghost use Rattle.decode.specs.{Front};

use console::{HeldPlan, held_plan};
use streams::{complain, finish};

// The text in front of the buffer, and its length: a buffer of the longest text's length has room for every plan's.
fn written(held: HeldPlan, buffer: &mut [u8]) -> usize
    requires { max_text ≤ length buffer.old }
    ensures { Front (text_of (form_from held.planner.form) (plan_of held.planner)) buffer.new result }
{
    text_writing::write_plan(held.planner, buffer).unwrap()
}

fn write_held(rt: HostRuntime, held: HeldPlan) {
    let mut buffer = [0u8; text_writing::MAX_TEXT];
    let size = written(held, &mut buffer);
    finish(&rt, rt.write_all(&buffer[..size]));
}

fn main(rt: HostRuntime) {
    match held_plan(rt) {
        Ok(held) => write_held(rt, held),
        Err(unheld) => complain(&rt, unheld),
    }
}
