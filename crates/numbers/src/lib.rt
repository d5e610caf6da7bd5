// Functions on numbers alone: each takes any.
#![tactic(auto)]

pub mod limits; // limits.rt: the ranges of a plan's numbers
pub mod frame; // frame.rt: a frame's bits on the wire
pub mod port; // port.rt: a port's window, and sets of ports
pub mod clock; // clock.rt: how far clocks differ, and the length over which frames are counted
