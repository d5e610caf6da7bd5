// A flow's field in each form: its numbers, and its route behind them.
ghost use Rattle.std.specs.Prelude.{◌≡◌, ◌++◌};
ghost use Rattle.plan_reading.specs.FieldBytes.{bytes2s};
ghost use Rattle.writing.specs.Laid.{laid};
ghost use Rattle.writing.specs.Fields.{head_bytes, flow_numbers, flow_bytes, flow2_bytes};

use crate::field::put_head;
use crate::number::{put2, put4};
use plan::layout::{
    COUNT_AT, FLOW_AT, FLOW_SIZE, FLOW_TAG, FLOW2_JITTER_AT, FLOW2_MAX_HOPS, FLOW2_SIZE, FLOW2_TAG,
    HEAD_SIZE, HOP_SIZE, LENGTH_AT, PERIOD_AT,
};

// Where each number, and the route, stands in its field.
const FLOW: usize = HEAD_SIZE + FLOW_AT;

const PERIOD: usize = HEAD_SIZE + PERIOD_AT;

const COUNT: usize = HEAD_SIZE + COUNT_AT;

const LENGTH: usize = HEAD_SIZE + LENGTH_AT;

const ROUTE: usize = HEAD_SIZE + FLOW_SIZE;

const JITTER2: usize = HEAD_SIZE + FLOW2_JITTER_AT;

const ROUTE2: usize = HEAD_SIZE + FLOW2_SIZE;

// The most ports of a route in any form.
const MOST_HOPS: usize = FLOW2_MAX_HOPS;

// The ports of a route, each in 2 bytes.
pub fn put_route(out: &mut [u8], route: &[u8])
    ensures { out.new ≡ laid (bytes2s route.now) out.old }
{
    let hops = route.len();
    if out.len() / HOP_SIZE < hops {
        return;
    }
    for i in 0..hops {
        let at = HOP_SIZE * i;
        put2(&mut out[at..], u16::from(route[i]));
    }
}

// Head and numbers with which a flow of either form begins.
fn begin_flow(out: &mut [u8], tag: u8, size: u16, number: u16, period: u32, count: u16, bytes: u16)
    ensures { out.new ≡ laid (head_bytes tag size ++ flow_numbers number period count bytes) out.old }
{
    if out.len() < HEAD_SIZE + FLOW_SIZE {
        return;
    }
    put_head(out, tag, size);
    put2(&mut out[FLOW..], number);
    put4(&mut out[PERIOD..], period);
    put2(&mut out[COUNT..], count);
    put2(&mut out[LENGTH..], bytes);
}

// Nothing is written of a route with more ports than a plan of any form may have; what the older form allows is not tested here.
pub fn put_flow(out: &mut [u8], number: u16, period: u32, count: u16, bytes: u16, route: &[u8])
    ensures { out.new ≡ laid (flow_bytes number period count bytes route.now) out.old }
{
    let hops = route.len();
    if MOST_HOPS < hops {
        return;
    }
    let size = FLOW_SIZE + HOP_SIZE * hops;
    if out.len() < HEAD_SIZE + size {
        return;
    }
    begin_flow(out, FLOW_TAG, size as u16, number, period, count, bytes);
    put_route(&mut out[ROUTE..], route);
}

// The newer form's flow: its jitter stands before its route. Not one function with `put_flow`: no older flow has a jitter to hand in.
pub fn put_flow2(
    out: &mut [u8],
    number: u16,
    period: u32,
    count: u16,
    bytes: u16,
    jitter: u32,
    route: &[u8],
)
    ensures { out.new ≡ laid (flow2_bytes number period count bytes jitter route.now) out.old }
{
    let hops = route.len();
    if MOST_HOPS < hops {
        return;
    }
    let size = FLOW2_SIZE + HOP_SIZE * hops;
    if out.len() < HEAD_SIZE + size {
        return;
    }
    begin_flow(out, FLOW2_TAG, size as u16, number, period, count, bytes);
    put4(&mut out[JITTER2..], jitter);
    put_route(&mut out[ROUTE2..], route);
}
