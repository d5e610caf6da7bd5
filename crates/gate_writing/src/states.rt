// Two queues of a port, and the gate states in which they are closed or one of them is open.
ghost use Rattle.std.specs.Prelude.{◌≡◌, true, ◌≤◌};
ghost use Rattle.gate_lists.specs.GateList.{bit, both_closed};
ghost use Rattle.gate_writing.specs.Gates.{last_queue, queues_ok};

const LAST_QUEUE: u64 = 7;

// The gate states in which all eight are open.
const ALL_OPEN: u8 = 255;

// Whether they are two different queues of the eight.
pub(crate) fn queues_ok(even: u64, odd: u64) -> bool
    ensures { result ≡ queues_ok even odd }
{
    even <= LAST_QUEUE && odd <= LAST_QUEUE && even != odd
}

// The bit of a queue.
pub(crate) fn queue_bit(queue: u64) -> u8
    requires { queue ≤ last_queue }
    ensures { result ≡ bit queue }
{
    match queue {
        0 => 1,
        1 => 2,
        2 => 4,
        3 => 8,
        4 => 16,
        5 => 32,
        6 => 64,
        _ => 128,
    }
}

// Both closed, and the other six open.
pub(crate) fn both_closed(even: u64, odd: u64) -> u8
    requires { queues_ok even odd ≡ true }
    ensures { result ≡ both_closed even odd }
{
    ALL_OPEN - queue_bit(even) - queue_bit(odd)
}
