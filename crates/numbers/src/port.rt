// The window of a port, and the lowest and the number of a set of failing ports.
ghost use Rattle.std.specs.Prelude.{◌≡◌, suc};
ghost use Rattle.std.specs.Int.Count.{ones, count_trailing_zeros};
ghost use Rattle.cqf.specs.Port.{window_of};

// The part of a cycle in which a port sends.
pub fn window(guard: u32, duration: u64) -> u64
    ensures { result ≡ window_of guard duration }
{
    duration.saturating_sub(2 * (guard as u64))
}

// The number of the lowest port of a set, and how many there are.
#[derive(Clone, Copy)]
pub struct FailingPorts {
    pub port: u32,
    pub count: u32,
}

pub fn failing_ports(set: u64) -> FailingPorts
    ensures { (result.port ≡ suc (count_trailing_zeros 64 set)) × (result.count ≡ ones set) }
{
    FailingPorts {
        port: set.trailing_zeros() + 1,
        count: set.count_ones(),
    }
}
