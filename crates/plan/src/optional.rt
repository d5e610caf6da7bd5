// Fields that a plan may leave out.

ghost use Rattle.std.specs.Prelude.{refl};
ghost use Rattle.plan.specs.declared.Field.{Field};
ghost use Rattle.plan.specs.Layout.{Kind, layout, numbers_size};

use crate::layout::{
    CLOCK_SIZE, DRIFT_AT, EXTRA_AT, EXTRA_PORT_AT, EXTRA_SIZE, JITTER_AT, JITTER_FLOW_AT,
    JITTER_SIZE, SYNC_ERROR_AT, TIMING_JITTER_AT,
};
use crate::number::{be16, be32};
use crate::value::Value;
use crate::{Extra, Field, Jitter};
use numbers::clock::{Clock, clock_ok};
use numbers::limits::{extra_ok, flow_ok, jitter_ok, port_ok};

impl Value for Extra {
    ghost kind = { Kind.extra };

    ghost as_field = { λ x. Field.Extra x };

    ghost SIZE = { numbers_size Kind.extra };

    const SIZE: usize = EXTRA_SIZE;

    ghost MOST_HOPS = { (layout Kind.extra).most_hops };

    const MOST_HOPS: usize = 0;

    ghost size_is = { refl };

    ghost most_is = { refl };

    fn read(value: &[u8], _hops: usize) -> Extra {
        Extra {
            number: be16(value, EXTRA_PORT_AT),
            extra: be16(value, EXTRA_AT),
        }
    }

    fn in_range(&self) -> bool {
        port_ok(self.number) && extra_ok(self.extra)
    }

    fn field(self) -> Field {
        Field::Extra(self)
    }
}

impl Value for Jitter {
    ghost kind = { Kind.jitter };

    ghost as_field = { λ x. Field.Jitter x };

    ghost SIZE = { numbers_size Kind.jitter };

    const SIZE: usize = JITTER_SIZE;

    ghost MOST_HOPS = { (layout Kind.jitter).most_hops };

    const MOST_HOPS: usize = 0;

    ghost size_is = { refl };

    ghost most_is = { refl };

    fn read(value: &[u8], _hops: usize) -> Jitter {
        Jitter {
            number: be16(value, JITTER_FLOW_AT),
            jitter: be32(value, JITTER_AT),
        }
    }

    fn in_range(&self) -> bool {
        flow_ok(self.number) && jitter_ok(self.jitter)
    }

    fn field(self) -> Field {
        Field::Jitter(self)
    }
}

impl Value for Clock {
    ghost kind = { Kind.clock };

    ghost as_field = { λ x. Field.Clock x };

    ghost SIZE = { numbers_size Kind.clock };

    const SIZE: usize = CLOCK_SIZE;

    ghost MOST_HOPS = { (layout Kind.clock).most_hops };

    const MOST_HOPS: usize = 0;

    ghost size_is = { refl };

    ghost most_is = { refl };

    fn read(value: &[u8], _hops: usize) -> Clock {
        Clock {
            drift: be32(value, DRIFT_AT),
            timing_jitter: be32(value, TIMING_JITTER_AT),
            sync_error: be32(value, SYNC_ERROR_AT),
        }
    }

    fn in_range(&self) -> bool {
        clock_ok(*self)
    }

    fn field(self) -> Field {
        Field::Clock(self)
    }
}
