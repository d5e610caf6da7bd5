// The columns of the tables: a number for each port, or for each flow; of the routes a place for each hop of each flow.
use crate::{FLOWS, PORTS, STRIDE};

pub type Rates = [u32; PORTS];

pub type Blockings = [u16; PORTS];

pub type Extras = [u8; PORTS];

pub type Periods = [u32; FLOWS];

pub type Counts = [u16; FLOWS];

pub type Lengths = [u16; FLOWS];

pub type Jitters = [u32; FLOWS];

pub type Hops = [u8; FLOWS];

pub type Routes = [u8; FLOWS * STRIDE];
