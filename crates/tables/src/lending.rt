// The tables lent column by column, and those of them that hold a plan.
ghost use Rattle.std.specs.Prelude.{◌≡◌, [], ◌≤◌, ◌<◌, true, false, length, MatchOption};
ghost use Rattle.cqf.specs.Limits.{flow_slots, max_hops};
ghost use Rattle.cqf.specs.Plan.{route_of, valid_plan};
ghost use Rattle.tables.specs.Columns.{plan_by};
ghost use Rattle.tables.specs.Lent.{plan_lent, LentOf};

use crate::{FLOWS, Planner, STRIDE, columns, valid_tables};
use numbers::clock::Clock;

// The numbers and the columns of a planner, or of a caller that has them apart.
#[derive(Clone, Copy)]
pub struct Lent<'a> {
    pub guard: u32,
    pub top: u32,
    pub clock: Clock,
    pub rates: &'a columns::Rates,
    pub blockings: &'a columns::Blockings,
    pub extras: &'a columns::Extras,
    pub periods: &'a columns::Periods,
    pub counts: &'a columns::Counts,
    pub lengths: &'a columns::Lengths,
    pub jitters: &'a columns::Jitters,
    pub hops: &'a columns::Hops,
    pub routes: &'a columns::Routes,
}

// Tables that hold a plan which the rules accept.
#[derive(Clone, Copy)]
pub struct Held<'a> {
    pub lent: Lent<'a>,
    ghost valid: { valid_plan (plan_lent lent) ≡ true },
}

impl<'a> Lent<'a> {
    // The same tables under another top.
    pub fn upto(self, top: u32) -> Lent<'a>
        ensures { result ≡ record self.entry { top = top } }
    {
        Lent { top, ..self }
    }
}

impl<'a> Held<'a> {
    // The ports of a flow's route, as they stand in the table of routes; none behind the last slot.
    #[inline(always)]
    pub fn route(self, f: usize) -> &'a [u8]
        ensures route { f < flow_slots → result.now ≡ route_of (plan_lent self.entry.lent) f }
        ensures behind { flow_slots ≤ f → result.now ≡ [] }
        ensures few { length result.now ≤ max_hops }
    {
        let routes = self.lent.routes;
        if FLOWS <= f {
            return &routes[..0];
        }
        let base = f * STRIDE;
        &routes[base..base + usize::from(self.lent.hops[f])]
    }
}

impl Planner {
    pub fn lend<'a>(&'a self) -> Lent<'a>
        ensures { LentOf self.now result }
    {
        Lent {
            guard: self.guard,
            top: self.top,
            clock: self.clock,
            rates: &self.rates,
            blockings: &self.blockings,
            extras: &self.extras,
            periods: &self.periods,
            counts: &self.counts,
            lengths: &self.lengths,
            jitters: &self.jitters,
            hops: &self.hops,
            routes: &self.routes,
        }
    }
}

// The tables, where they hold a plan: part of its callers in the machine, so that nothing is handed back in memory.
#[inline(always)]
pub fn hold<'a>(lent: Lent<'a>) -> Option<Held<'a>>
    ensures { MatchOption result (valid_plan (plan_lent lent.entry) ≡ false)
        (λ held. held.lent ≡ lent.entry) }
{
    if valid_tables(lent) {
        Some(Held { lent })
    } else {
        None
    }
}
