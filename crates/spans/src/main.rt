// Reads a plan from standard input and prints its spans, one a line and rising: the runs of admissible durations that can grow at
// neither end. With a duration as argument it prints the first that ends there or later. What is no span stands on standard error.
#![tactic(auto)]

use console::{HeldPlan, held_plan};
use planner::{Planner, SpanRecord};
use std::io;
use streams::{complain, finish};

fn say_span(out: &impl Print, span: SpanRecord) -> io::Result<()> {
    println!(out; "span {} {}", span.first, span.last)
}

// Every span by the question for one, each time from behind the last: there may be more than a list of any size takes.
fn say_spans(out: &impl Print, held: HeldPlan) -> io::Result<()> {
    let top = held.planner.top as u64;
    let mut at: u64 = 1;
    while at <= top {
        let Ok(span) = planner::span(held.planner, at) else {
            break;
        };
        say_span(out, span)?;
        at = span.last + 1;
    }
    Ok(())
}

fn say_one(rt: HostRuntime, planner: Planner, duration: u64) {
    let answer = planner::span(planner, duration);
    match answer {
        Ok(span) => finish(&rt, say_span(&rt, span)),
        Err(_) => {
            let number = planner::span_number(answer);
            complain(&rt, format_args!("refused {number}"));
        }
    }
}

// All spans, or one from a duration on.
fn plan_spans(rt: HostRuntime, from: Option<u64>) {
    match (held_plan(rt), from) {
        (Ok(held), Some(duration)) => say_one(rt, held.planner, duration),
        (Ok(held), None) => finish(&rt, say_spans(&rt, held)),
        (Err(unheld), _) => complain(&rt, unheld),
    }
}

fn main(rt: HostRuntime) {
    let duration = arguments::number(&rt, 1);
    match (arguments::count(&rt), duration) {
        (1, _) => plan_spans(rt, None),
        (2, Some(_)) => plan_spans(rt, duration),
        _ => complain(&rt, "usage: spans [DURATION]"),
    }
}
