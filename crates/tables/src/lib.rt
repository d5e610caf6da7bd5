// The tables of a held plan, and whether they hold a plan that the rules accept.
#![tactic(auto)]

ghost use Rattle.std.specs.Prelude.{◌≡◌};
ghost use Rattle.cqf.specs.Plan.{no_plan};
ghost use Rattle.tables.specs.Tables.{plan_of};

use numbers::clock::Clock;

// A slot for each port and flow, and the positions from one flow's route to the next.
pub const PORTS: usize = numbers::limits::MAX_PORT as usize;

pub const FLOWS: usize = numbers::limits::MAX_FLOW as usize;

pub const STRIDE: usize = 24;

pub mod columns; // columns.rt: the type of each column
mod lending; // lending.rt: the tables lent column by column, and those that hold a plan
mod valid; // valid.rt: whether the tables hold a plan that the rules accept
mod forms; // forms.rt: the top by the form
mod ports; // ports.rt: the slots of the ports
mod flows; // flows.rt: the slots of the flows

pub use forms::held_top;
pub use lending::{Held, Lent, hold};
pub use valid::valid_tables;

// The held plan: port n in slot n - 1, flow n in slot n - 1, a flow's route at its slot times the stride. An absent port has rate 0,
// an absent flow period 0; top is 0 where no plan is held. The form's number is that of the bytes that the plan was read from.
#[repr(C)]
#[derive(Clone, Copy)]
pub struct Planner {
    pub form: u32,
    pub guard: u32,
    pub top: u32,
    pub clock: Clock,
    pub rates: columns::Rates,
    pub blockings: columns::Blockings,
    pub extras: columns::Extras,
    pub periods: columns::Periods,
    pub counts: columns::Counts,
    pub lengths: columns::Lengths,
    pub jitters: columns::Jitters,
    pub hops: columns::Hops,
    pub routes: columns::Routes,
}

// The planner that holds no plan.
pub fn empty() -> Planner
    ensures plan { plan_of result ≡ no_plan }
    ensures form { result.form ≡ 0 }
{
    Planner {
        form: 0,
        guard: 0,
        top: 0,
        clock: Clock {
            drift: 0,
            timing_jitter: 0,
            sync_error: 0,
        },
        rates: [0; PORTS],
        blockings: [0; PORTS],
        extras: [0; PORTS],
        periods: [0; FLOWS],
        counts: [0; FLOWS],
        lengths: [0; FLOWS],
        jitters: [0; FLOWS],
        hops: [0; FLOWS],
        routes: [0; FLOWS * STRIDE],
    }
}
