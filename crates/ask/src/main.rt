// Reads a plan from standard input, as bytes or as text, and says of the duration given as argument whether it is admissible: where it is, how much is to
// spare and how far the durations around it are admissible too; where it is not, which ports fail by how much and for which flows, the
// nearest durations that are, and a bad emission. A refusal stands on standard error.
#![tactic(auto)]

mod accepted; // accepted.rt: of an admissible duration
mod asked; // asked.rt: a plan and the duration asked of it
mod bits; // bits.rt: products and quotients
mod capacity; // capacity.rt: what a port can send, and the cycle that it needs
mod emission; // emission.rt: the bad emission
mod failing; // failing.rt: the ports that fail
mod shares; // shares.rt: what each flow brings to a port

use asked::Asked;
use console::unheld;
use plan_text::read_text;
use planner::CheckRefusal;
use std::fmt::{Display, Formatter};
use std::{fmt, io};
use streams::{Unheld, complain, finish, read_input};
use text_refusals::Told;

// One byte more than a text may have: a longer input is read no further.
const ROOM: usize = plan_text::MAX_TEXT + 1;

// A duration beside the one that was asked for.
#[derive(Clone, Copy)]
struct Neighbour(Option<u64>);

impl Display for Neighbour {
    fn fmt<W: fmt::Write>(&self, f: &mut Formatter<W>) -> fmt::Result {
        match self.0 {
            Some(duration) => write!(f, "{duration}"),
            None => write!(f, "none"),
        }
    }
}

fn say_nearest(out: &impl Print, asked: Asked) -> io::Result<()> {
    let Ok(nearest) = planner::nearest(*asked.planner, asked.duration) else {
        return Ok(());
    };
    let below = Neighbour(nearest.below);
    let above = Neighbour(nearest.above);
    println!(out; "nearest admissible durations: {below} below, {above} above")
}

fn say_admissible(out: &impl Print, asked: Asked) -> io::Result<()> {
    println!(out; "{} ns is admissible", asked.duration)?;
    accepted::say_spare(out, asked)?;
    accepted::say_run(out, asked)?;
    accepted::say_margin_safe(out, asked)
}

fn say_failing(out: &impl Print, asked: Asked) -> io::Result<()> {
    println!(out; "{} ns is not admissible", asked.duration)?;
    failing::say_ports(out, asked)?;
    say_nearest(out, asked)?;
    emission::say_emission(out, asked)
}

fn answer(rt: HostRuntime, asked: Asked) {
    let answer = planner::check(*asked.planner, asked.duration);
    match answer {
        Ok(()) => finish(&rt, say_admissible(&rt, asked)),
        Err(CheckRefusal::Failing { port: _, count: _ }) => finish(&rt, say_failing(&rt, asked)),
        Err(_) => {
            let number = planner::check_number(answer);
            complain(&rt, format_args!("refused {number}"));
        }
    }
}

// A plan of either form, in bytes.
fn ask_bytes(rt: HostRuntime, bytes: &[u8], duration: u64) {
    let outcome = planner::load(planner::empty(), bytes);
    let planner = &outcome.planner;
    match outcome.answer {
        Ok(_) => answer(rt, Asked { planner, duration }),
        Err(refusal) => complain(&rt, unheld(refusal)),
    }
}

fn ask_text(rt: HostRuntime, text: &[u8], duration: u64) {
    let outcome = read_text(text);
    let planner = &outcome.planner;
    match outcome.answer {
        Ok(_) => answer(rt, Asked { planner, duration }),
        Err(refusal) => complain(&rt, Told(refusal)),
    }
}

// Bytes where the first of them is a tag of either form, else text.
fn ask(rt: HostRuntime, given: &[u8], duration: u64) {
    match given.first() {
        Some(1..=6 | 0x11..=0x13) => ask_bytes(rt, given, duration),
        _ => ask_text(rt, given, duration),
    }
}

fn ask_input(rt: HostRuntime, duration: u64) {
    let mut input = [0u8; ROOM];
    match read_input(&mut rt.stdin(), &mut input) {
        Ok(n) => ask(rt, &input[..n], duration),
        Err(_) => complain(&rt, Unheld::Unreadable),
    }
}

fn main(rt: HostRuntime) {
    match (arguments::count(&rt), arguments::number(&rt, 1)) {
        (2, Some(duration)) => ask_input(rt, duration),
        _ => complain(&rt, "usage: ask DURATION"),
    }
}
