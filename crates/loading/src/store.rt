// A field stored into the tables of a plan that is being read.

ghost use Rattle.std.specs.Prelude.{◌≤◌, ◌≡◌};
ghost use Rattle.plan.specs.Layout.{layout};
ghost use Rattle.plan.specs.Field.{route_ports};
ghost use Rattle.plan_reading.specs.Key.{key_of};
ghost use Rattle.plan_reading.specs.Draft.{added};
ghost use Rattle.plan_reading.specs.Reading.{max_bytes};
ghost use Rattle.plan_reading.specs.Ranges.{NumbersOk, RouteFits};
ghost use Rattle.plan.specs.Answer.{field_of};
ghost use Rattle.loading.specs.Loading.{draft_of};

use crate::slots::{store_extra, store_flow, store_flow2, store_jitter, store_port, store_port2};
use numbers::clock::Clock;
use plan::Field;
use tables::{FLOWS, PORTS, Planner};

// A flag for each key: the header's, the ports', the flows', those of the ports' extra bytes and of the flows' jitter, the clock's.
// The newer form's fields have the keys of the older ones of their names.
pub(crate) const HEADER_KEY: usize = 0;

// The key of port 1, of flow 1, of port 1's extra bytes, of flow 1's jitter, and of the clock.
pub(crate) const PORT_KEYS: usize = HEADER_KEY + 1;

pub(crate) const FLOW_KEYS: usize = PORT_KEYS + PORTS;

pub(crate) const EXTRA_KEYS: usize = FLOW_KEYS + FLOWS;

pub(crate) const JITTER_KEYS: usize = EXTRA_KEYS + PORTS;

pub(crate) const CLOCK_KEY: usize = JITTER_KEYS + FLOWS;

pub(crate) const KEYS: usize = CLOCK_KEY + 1;

// What was read beside the tables: how many port and flow fields, a mark for each key, and one for each port that a route names.
#[derive(Clone, Copy)]
pub(crate) struct Tally {
    pub ports: u16,
    pub flows: u16,
    pub seen: [u8; KEYS],
    pub named: [u8; PORTS],
}

pub(crate) fn key_of(field: Field) -> usize
    ensures { result ≡ key_of (field_of field) }
{
    match field {
        Field::Header(_) => HEADER_KEY,
        Field::Port(x) => HEADER_KEY + x.number as usize,
        Field::Flow(x) => PORTS + x.number as usize,
        Field::Extra(x) => PORTS + FLOWS + x.number as usize,
        Field::Jitter(x) => PORTS + FLOWS + PORTS + x.number as usize,
        Field::Clock(_) => CLOCK_KEY,
        Field::Header2(_) => HEADER_KEY,
        Field::Port2(x) => HEADER_KEY + x.number as usize,
        Field::Flow2(x) => PORTS + x.number as usize,
    }
}

// The field stored, with the bytes of its route, and its key marked as seen.
pub(crate) fn store_field(field: Field, route: &[u8], tables: &mut Planner, tally: &mut Tally)
    requires ports { tally.old.ports ≤ max_bytes }
    requires flows { tally.old.flows ≤ max_bytes }
    requires numbers { NumbersOk (layout (field_of field).kind).form (field_of field) }
    requires route { RouteFits (field_of field) (route_ports route.now) }
    ensures draft { draft_of tables.new tally.new ≡ added (draft_of tables.old tally.old) (field_of field) (route_ports route.now) }
    ensures named { tally.new.named ≡ tally.old.named }
{
    let key = key_of(field);
    tally.seen[key] = 1;
    match field {
        Field::Header(x) => {
            tables.guard = x.guard;
            tables.top = x.top;
        }
        Field::Port(x) => {
            store_port(tables, x);
            tally.ports += 1;
        }
        Field::Flow(x) => {
            store_flow(tables, x, route);
            tally.flows += 1;
        }
        Field::Extra(x) => store_extra(tables, x),
        Field::Jitter(x) => store_jitter(tables, x),
        Field::Clock(x) => tables.clock = x,
        Field::Header2(x) => {
            tables.guard = x.guard;
            tables.top = x.top;
            tables.clock = Clock {
                drift: x.drift,
                timing_jitter: x.timing_jitter,
                sync_error: x.sync_error,
            };
        }
        Field::Port2(x) => {
            store_port2(tables, x);
            tally.ports += 1;
        }
        Field::Flow2(x) => {
            store_flow2(tables, x, route);
            tally.flows += 1;
        }
    }
}
