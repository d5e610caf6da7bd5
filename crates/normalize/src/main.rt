// Reads a plan of any spelling from standard input and writes its strict bytes, those as which it is saved in its form, to standard output.
#![tactic(auto)]

ghost use Rattle.std.specs.Prelude.{◌≤◌, length};
ghost use Rattle.cqf.specs.Form.{form_from};
ghost use Rattle.plan_reading.specs.Reading.{max_bytes};
ghost use Rattle.plan_reading.specs.Saved.{form_bytes};
ghost use Rattle.tables.specs.Tables.{plan_of};
ghost use Rattle.normalize.specs.{Front};

use console::{HeldPlan, held_plan};
use streams::{complain, finish};

// The saved plan in front of the buffer, and its length: a buffer of the longest plan's length has room for every plan.
fn saved(held: HeldPlan, buffer: &mut [u8]) -> usize
    requires { max_bytes ≤ length buffer.old }
    ensures { Front (form_bytes (form_from held.planner.form) (plan_of held.planner)) buffer.new result }
{
    planner::save(held.planner, buffer).unwrap()
}

fn write_saved(rt: HostRuntime, held: HeldPlan) {
    let mut buffer = [0u8; loading::MAX_BYTES];
    let size = saved(held, &mut buffer);
    finish(&rt, rt.write_all(&buffer[..size]));
}

fn main(rt: HostRuntime) {
    match held_plan(rt) {
        Ok(held) => write_saved(rt, held),
        Err(unheld) => complain(&rt, unheld),
    }
}
