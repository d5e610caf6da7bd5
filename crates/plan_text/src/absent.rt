// The flow in the lowest line that names a port which is not in the plan.
ghost use Rattle.std.specs.Prelude.{◌+◌, ◌*◌, ◌≤◌, ◌≡◌, IfSome};
ghost use Rattle.cqf.specs.Bounded.{sublist};
ghost use Rattle.cqf.specs.Limits.{flow_slots, route_stride};
ghost use Rattle.cqf.specs.Plan.{port_in};
ghost use Rattle.plan_text.specs.Text.{missing, lower, absent_to};
ghost use Rattle.plan_text.specs.Drafting.{absent_of, named_of, HopsWithin};

use crate::draft::{Draft, Lines};
use numbers::limits::port_ok;
use tables::{FLOWS, Planner, STRIDE, columns};

// Its line, and the port.
#[derive(Clone, Copy)]
pub(crate) struct Absent {
    pub line: u32,
    pub named: u8,
}

fn has_port(rates: &columns::Rates, number: u8) -> bool
    ensures { result ≡ port_in rates.now number }
{
    port_ok(number as u16) && 0 < rates[(number - 1) as usize]
}

// The first port of a route that is not in the plan. A place that holds no port has 0.
fn absent_port(tables: &Planner, base: usize, hops: usize) -> Option<u8>
    requires { base + hops ≤ flow_slots * route_stride }
    ensures named { named_of result ≡ missing tables.now.rates (sublist tables.now.routes base hops) }
    ensures some { IfSome result (λ n. 1 ≤ n) }
{
    for i in 0..hops {
        let port = tables.routes[base + i];
        if !has_port(&tables.rates, port) {
            return if port == 0 { None } else { Some(port) };
        }
    }
    None
}

// The lower of two.
fn lower_of(found: Option<Absent>, line: u32, named: u8) -> Absent
    requires named { 1 ≤ named }
    requires found { IfSome found (λ a. 1 ≤ a.named) }
    ensures lower { absent_of (Some result) ≡ lower (absent_of found) line named }
    ensures named { 1 ≤ result.named }
{
    match found {
        Some(absent) if absent.line <= line => absent,
        _ => Absent { line, named },
    }
}

pub(crate) fn first_absent(draft: &Draft) -> Option<Absent>
    requires { HopsWithin draft.now.tables.hops }
    ensures named { IfSome result (λ a. 1 ≤ a.named) }
    ensures same { absent_of result ≡ absent_to flow_slots draft.now.tables.rates draft.now.tables.hops draft.now.tables.routes draft.now.lines }
{
    let mut found = None;
    for f in 0..FLOWS {
        let hops = draft.tables.hops[f] as usize;
        if let Some(named) = absent_port(&draft.tables, f * STRIDE, hops) {
            found = Some(lower_of(found, draft.lines[f], named));
        }
    }
    found
}
