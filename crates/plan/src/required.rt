// The header, ports and flows.

ghost use Rattle.std.specs.Prelude.{refl};
ghost use Rattle.plan.specs.declared.Field.{Field};
ghost use Rattle.plan.specs.Layout.{Kind, layout, numbers_size};

use crate::layout::{
    BLOCKING_AT, COUNT_AT, FLOW_AT, FLOW_SIZE, GUARD_AT, HEADER_SIZE, LENGTH_AT, MAX_HOPS,
    PERIOD_AT, PORT_AT, PORT_SIZE, RATE_AT, TOP_AT,
};
use crate::number::{be16, be32};
use crate::value::Value;
use crate::{Field, Flow, Header, Port};
use numbers::limits::{
    blocking_ok, count_ok, flow_ok, guard_ok, length_ok, period_ok, port_ok, rate_ok, top_ok,
};

impl Value for Header {
    ghost kind = { Kind.header };

    ghost as_field = { λ x. Field.Header x };

    ghost SIZE = { numbers_size Kind.header };

    const SIZE: usize = HEADER_SIZE;

    ghost MOST_HOPS = { (layout Kind.header).most_hops };

    const MOST_HOPS: usize = 0;

    ghost size_is = { refl };

    ghost most_is = { refl };

    fn read(value: &[u8], _hops: usize) -> Header {
        Header {
            guard: be32(value, GUARD_AT),
            top: be32(value, TOP_AT),
        }
    }

    fn in_range(&self) -> bool {
        guard_ok(self.guard) && top_ok(self.top)
    }

    fn field(self) -> Field {
        Field::Header(self)
    }
}

impl Value for Port {
    ghost kind = { Kind.port };

    ghost as_field = { λ x. Field.Port x };

    ghost SIZE = { numbers_size Kind.port };

    const SIZE: usize = PORT_SIZE;

    ghost MOST_HOPS = { (layout Kind.port).most_hops };

    const MOST_HOPS: usize = 0;

    ghost size_is = { refl };

    ghost most_is = { refl };

    fn read(value: &[u8], _hops: usize) -> Port {
        Port {
            number: be16(value, PORT_AT),
            rate: be32(value, RATE_AT),
            blocking: be16(value, BLOCKING_AT),
        }
    }

    fn in_range(&self) -> bool {
        port_ok(self.number) && rate_ok(self.rate) && blocking_ok(self.blocking)
    }

    fn field(self) -> Field {
        Field::Port(self)
    }
}

impl Value for Flow {
    ghost kind = { Kind.flow };

    ghost as_field = { λ x. Field.Flow x };

    ghost SIZE = { numbers_size Kind.flow };

    const SIZE: usize = FLOW_SIZE;

    ghost MOST_HOPS = { (layout Kind.flow).most_hops };

    const MOST_HOPS: usize = MAX_HOPS;

    ghost size_is = { refl };

    ghost most_is = { refl };

    // One case for each length that it may have, and none for any other.
    fn hops_by_length(size: usize) -> Option<usize> {
        match size {
            12 => Some(1),
            14 => Some(2),
            16 => Some(3),
            18 => Some(4),
            20 => Some(5),
            22 => Some(6),
            24 => Some(7),
            26 => Some(8),
            28 => Some(9),
            30 => Some(10),
            32 => Some(11),
            34 => Some(12),
            36 => Some(13),
            38 => Some(14),
            40 => Some(15),
            42 => Some(16),
            _ => None,
        }
    }

    fn read(value: &[u8], hops: usize) -> Flow {
        Flow {
            number: be16(value, FLOW_AT),
            period: be32(value, PERIOD_AT),
            count: be16(value, COUNT_AT),
            length: be16(value, LENGTH_AT),
            hops: hops as u8,
        }
    }

    fn in_range(&self) -> bool {
        flow_ok(self.number)
            && period_ok(self.period)
            && count_ok(self.count)
            && length_ok(self.length)
    }

    fn field(self) -> Field {
        Field::Flow(self)
    }
}
