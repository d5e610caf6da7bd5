// Reads a plan of the older form from standard input and writes it in the newer one to standard output.
#![tactic(auto)]

use console::say_converted;
use streams::{Unheld, complain, read_input};

fn convert(rt: HostRuntime, plan: &[u8]) {
    let mut buffer = [0u8; loading::MAX_BYTES];
    let answer = planner::upgrade(plan, &mut buffer);
    say_converted(rt, answer, &buffer);
}

fn main(rt: HostRuntime) {
    let mut input = [0u8; console::ROOM];
    match read_input(&mut rt.stdin(), &mut input) {
        Ok(n) => convert(rt, &input[..n]),
        Err(_) => complain(&rt, Unheld::Unreadable),
    }
}
