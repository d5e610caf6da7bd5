// The bad emission of the lowest failing port: a line for each flow, and where the first frame is left unsent.
use crate::asked::{Asked, Flow};
use crate::bits::product;
use crate::shares::Frames;
use emissions::Unsent;
use std::io;
use tables::FLOWS;

// How many of the frames stand at the first instant: those whose nominal instants lie within the jitter before it. Far below 2^64.
fn at_once(flow: Flow, frames: u64) -> u64 {
    if flow.period == 0 {
        return frames;
    }
    let earlier = product(u32::from(flow.count), flow.jitter / flow.period);
    frames.min(earlier.wrapping_add(u64::from(flow.count)))
}

// The frames behind those at the first instant: count of them each period.
fn say_later(out: &impl Print, flow: Flow, from: u64, to: u64) -> io::Result<()> {
    let Flow { period, count, .. } = flow;
    if from == to {
        println!(out; ", then {count} at {from}")
    } else {
        println!(out; ", then {count} each {period} ns from {from} to {to}")
    }
}

fn say_flow(out: &impl Print, asked: Asked, port: u64, flow: Flow) -> io::Result<()> {
    let number = flow.number;
    let Some(first) = asked.burst(port, number, 0) else {
        return Ok(());
    };
    let frames = first.frames;
    if frames == 0 {
        return Ok(());
    }
    let cycle = first.cycle;
    let once = at_once(flow, frames);
    let instant = first.instant.unwrap_or(0);
    print!(out;
        "  flow {number}: {} in cycle {cycle}, {once} at {instant}",
        Frames(frames)
    )?;
    if once < frames {
        let next = asked.instant(port, number, once);
        let last = asked.instant(port, number, frames - 1);
        say_later(out, flow, next, last)
    } else {
        println!(out; "")
    }
}

pub(crate) fn say_emission(out: &impl Print, asked: Asked) -> io::Result<()> {
    let Some(unsent) = asked.unsent() else {
        return Ok(());
    };
    println!(out; "a bad emission, where port {} fails:", unsent.failing)?;
    for f in 0..FLOWS {
        say_flow(out, asked, u64::from(unsent.failing), asked.flow(f))?;
    }
    let Unsent {
        cycle,
        port,
        bits,
        most,
        ..
    } = unsent;
    println!(out; "  in cycle {cycle} port {port} must send {bits} bits and can send {most}")
}
