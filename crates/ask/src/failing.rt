// Each port that fails: what it must send in a cycle, what it can, by how many ns the duration is short, and the flows that cross it.
use crate::asked::Asked;
use crate::capacity::Port;
use crate::shares::{say_shares, shares_of, sum_of};
use std::io;
use tables::PORTS;

fn say_port(out: &impl Print, asked: Asked, port: Port) -> io::Result<()> {
    let shares = shares_of(asked, port);
    let number = port.number;
    let bits = sum_of(&shares);
    let sendable = asked.sendable(port);
    let short = asked.short_of(port, bits);
    println!(out;
        "port {number} must send {bits} bits in a cycle and can send {sendable}: {short} ns short"
    )?;
    say_shares(out, &shares)
}

pub(crate) fn say_ports(out: &impl Print, asked: Asked) -> io::Result<()> {
    for q in 0..PORTS {
        let port = asked.port(q);
        if asked.slack(port).is_some_and(|slack| slack < 0) {
            say_port(out, asked, port)?;
        }
    }
    Ok(())
}
