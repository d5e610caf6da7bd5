// What is said of an admissible duration: the smallest slack, the run of admissible durations around it, whether it is margin-safe.
use crate::asked::Asked;
use crate::capacity::Port;
use crate::shares::{shares_of, sum_of};
use std::io;
use tables::PORTS;

// The lowest port with the smallest slack.
fn tightest(asked: Asked) -> Option<Port> {
    let mut smallest: Option<(i64, Port)> = None;
    for q in 0..PORTS {
        let port = asked.port(q);
        let Some(slack) = asked.slack(port) else {
            continue;
        };
        if smallest.is_none_or(|(least, _)| slack < least) {
            smallest = Some((slack, port));
        }
    }
    smallest.map(|(_, port)| port)
}

// The whole bits of a slack that is not negative: what the port can send less what it must.
fn spare_bits(asked: Asked, port: Port) -> u64 {
    let demand = sum_of(&shares_of(asked, port));
    asked.sendable(port).saturating_sub(demand)
}

pub(crate) fn say_spare(out: &impl Print, asked: Asked) -> io::Result<()> {
    let Some(port) = tightest(asked) else {
        return Ok(());
    };
    let spare = spare_bits(asked, port);
    println!(out; "smallest spare: {spare} bits at port {}", port.number)
}

// The first span that ends at the duration or later: as the duration is admissible, the one that it is in.
pub(crate) fn say_run(out: &impl Print, asked: Asked) -> io::Result<()> {
    match asked.span() {
        Some(span) => println!(out; "admissible from {} to {} ns", span.first, span.last),
        None => Ok(()),
    }
}

pub(crate) fn say_margin_safe(out: &impl Print, asked: Asked) -> io::Result<()> {
    let mut scratch = [0u64; 1];
    match planner::lean_margin_safe(*asked.planner, &mut scratch) {
        Ok(safe) if safe <= asked.duration => println!(out; "margin-safe"),
        Ok(safe) => println!(out; "not margin-safe; margin-safe from {safe} ns"),
        Err(_) => println!(out; "not margin-safe; no duration is"),
    }
}
