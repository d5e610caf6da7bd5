// Searches the least durations of up to eight plans in turn, and prints them in the order of the arguments, which name the plans'
// files. Standard error shows how far each has come.
#![tactic(auto)]

mod files; // files.rt: a plan's file, read into a slot
mod turns; // turns.rt: turns until no plan is pending

ghost use Rattle.std.specs.Prelude.{◌≤◌, length};

use files::place_file;
use loading::Loaded;
use planner::{Batch, CollectRefusal, FixedPoint};
use std::io;
use streams::{Unheld, complain, finish};
use turns::serve_all;

// A slot for each file.
const FILES: usize = batching::SLOTS as usize;

// As progress says the end of its portions. Each program has an error of its own to match, and one function over both would be no shorter.
fn say_answer(out: &impl Print, answer: Result<FixedPoint, CollectRefusal>) -> io::Result<()> {
    let number = planner::collect_number(answer);
    match answer {
        Ok(FixedPoint { duration, steps }) => println!(out; "least {duration} steps {steps}"),
        Err(CollectRefusal::Failing { port, count, steps }) => {
            println!(out; "least refused {number} port {port} failing {count} steps {steps}")
        }
        Err(_) => println!(out; "least refused {number}"),
    }
}

// A line for each file, by what reading it gave.
fn say_answers(
    out: &impl Print,
    batch: Batch,
    placed: &[Result<Loaded, Unheld>],
) -> io::Result<()> {
    for (slot, placed) in placed.iter().enumerate() {
        match *placed {
            Ok(_) => say_answer(out, planner::collect(batch, slot as u64).answer)?,
            Err(unheld) => out.println(unheld)?,
        }
    }
    Ok(())
}

fn plan_files(rt: HostRuntime, files: usize)
    requires { files ≤ 8 }
{
    let mut batch = planner::empty_batch();
    let mut placed = [Err(Unheld::Unreadable); FILES];
    for slot in 0..files {
        placed[slot] = place_file(rt, &mut batch, slot, slot + 1);
    }
    let batch = serve_all(rt, batch);
    finish(&rt, say_answers(&rt, batch, &placed[..files]));
}

fn main(rt: HostRuntime) {
    let words = arguments::count(&rt);
    if words < 2 || FILES < words - 1 {
        return complain(&rt, "usage: batch PLAN.. (up to eight files)");
    }
    plan_files(rt, words - 1);
}
