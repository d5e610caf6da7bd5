// Reads a plan from standard input and prints its counts, its header's numbers, and the least and the margin-safe duration.
#![tactic(auto)]

use console::{HeldPlan, held_plan};
use planner::SearchRefusal;
use std::io;

fn say_held(out: &impl Print, held: HeldPlan) -> io::Result<()> {
    let ports = held.loaded.ports;
    let flows = held.loaded.flows;
    let guard = held.planner.guard;
    let top = held.planner.top;
    println!(out; "ports {ports} flows {flows} guard {guard} top {top}")
}

// What a search found, or its refusal with that number.
fn say_found(out: &impl Print, answer: Result<u64, SearchRefusal>, number: u32) -> io::Result<()> {
    match answer {
        Ok(duration) => println!(out; "{duration}"),
        Err(SearchRefusal::Failing { port, count: _ }) => {
            println!(out; "refused {number} port {port}")
        }
        Err(_) => println!(out; "refused {number}"),
    }
}

fn say_plan(out: &impl Print, held: HeldPlan) -> io::Result<()> {
    let mut scratch = [0u64; 64];
    say_held(out, held)?;
    let least = planner::least(held.planner, &mut scratch);
    out.print("least ")?;
    say_found(out, least, planner::least_number(least))?;
    let safe = planner::margin_safe(held.planner, &mut scratch);
    out.print("safe ")?;
    say_found(out, safe, planner::margin_safe_number(safe))
}

fn main(rt: HostRuntime) {
    let wrote = match held_plan(rt) {
        Ok(held) => say_plan(&rt, held),
        Err(unheld) => rt.println(unheld),
    };
    streams::finish(&rt, wrote);
}
