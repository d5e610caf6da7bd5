// The fields of the newer form, each an older one with what an optional field says.

ghost use Rattle.std.specs.Prelude.{refl};
ghost use Rattle.plan.specs.declared.Field.{Field};
ghost use Rattle.plan.specs.Layout.{Kind, layout, numbers_size};

use crate::layout::{
    BLOCKING_AT, COUNT_AT, FLOW_AT, FLOW2_JITTER_AT, FLOW2_MAX_HOPS, FLOW2_SIZE, GUARD_AT,
    HEADER2_DRIFT_AT, HEADER2_SIZE, HEADER2_SYNC_ERROR_AT, HEADER2_TIMING_JITTER_AT, LENGTH_AT,
    PERIOD_AT, PORT_AT, PORT2_EXTRA_AT, PORT2_SIZE, RATE_AT, TOP_AT,
};
use crate::number::{be16, be32};
use crate::value::Value;
use crate::{Field, Flow2, Header2, Port2};
use numbers::clock::{Clock, clock_ok};
use numbers::limits::{
    blocking_ok, count_ok, extra_ok, flow_ok, guard_ok, jitter_ok, length_ok, period_ok, port_ok,
    rate_ok, top_ok,
};

impl Value for Header2 {
    ghost kind = { Kind.header2 };

    ghost as_field = { λ x. Field.Header2 x };

    ghost SIZE = { numbers_size Kind.header2 };

    const SIZE: usize = HEADER2_SIZE;

    ghost MOST_HOPS = { (layout Kind.header2).most_hops };

    const MOST_HOPS: usize = 0;

    ghost size_is = { refl };

    ghost most_is = { refl };

    fn read(value: &[u8], _hops: usize) -> Header2 {
        Header2 {
            guard: be32(value, GUARD_AT),
            top: be32(value, TOP_AT),
            drift: be32(value, HEADER2_DRIFT_AT),
            timing_jitter: be32(value, HEADER2_TIMING_JITTER_AT),
            sync_error: be32(value, HEADER2_SYNC_ERROR_AT),
        }
    }

    fn in_range(&self) -> bool {
        let clock = Clock {
            drift: self.drift,
            timing_jitter: self.timing_jitter,
            sync_error: self.sync_error,
        };
        guard_ok(self.guard) && top_ok(self.top) && clock_ok(clock)
    }

    fn field(self) -> Field {
        Field::Header2(self)
    }
}

impl Value for Port2 {
    ghost kind = { Kind.port2 };

    ghost as_field = { λ x. Field.Port2 x };

    ghost SIZE = { numbers_size Kind.port2 };

    const SIZE: usize = PORT2_SIZE;

    ghost MOST_HOPS = { (layout Kind.port2).most_hops };

    const MOST_HOPS: usize = 0;

    ghost size_is = { refl };

    ghost most_is = { refl };

    fn read(value: &[u8], _hops: usize) -> Port2 {
        Port2 {
            number: be16(value, PORT_AT),
            rate: be32(value, RATE_AT),
            blocking: be16(value, BLOCKING_AT),
            extra: be16(value, PORT2_EXTRA_AT),
        }
    }

    fn in_range(&self) -> bool {
        port_ok(self.number)
            && rate_ok(self.rate)
            && blocking_ok(self.blocking)
            && extra_ok(self.extra)
    }

    fn field(self) -> Field {
        Field::Port2(self)
    }
}

impl Value for Flow2 {
    ghost kind = { Kind.flow2 };

    ghost as_field = { λ x. Field.Flow2 x };

    ghost SIZE = { numbers_size Kind.flow2 };

    const SIZE: usize = FLOW2_SIZE;

    ghost MOST_HOPS = { (layout Kind.flow2).most_hops };

    const MOST_HOPS: usize = FLOW2_MAX_HOPS;

    ghost size_is = { refl };

    ghost most_is = { refl };

    fn read(value: &[u8], hops: usize) -> Flow2 {
        Flow2 {
            number: be16(value, FLOW_AT),
            period: be32(value, PERIOD_AT),
            count: be16(value, COUNT_AT),
            length: be16(value, LENGTH_AT),
            jitter: be32(value, FLOW2_JITTER_AT),
            hops: hops as u8,
        }
    }

    fn in_range(&self) -> bool {
        flow_ok(self.number)
            && period_ok(self.period)
            && count_ok(self.count)
            && length_ok(self.length)
            && jitter_ok(self.jitter)
    }

    fn field(self) -> Field {
        Field::Flow2(self)
    }
}
