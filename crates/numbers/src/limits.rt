// The ranges of a plan's numbers (document 01, "The plan's bytes").

ghost use Rattle.std.specs.Prelude.{◌≡◌};
ghost use Rattle.cqf.specs.Bounded.{within};
ghost use Rattle.cqf.specs.Limits.{guard_ok, top_ok, port_ok, rate_ok, length_ok, blocking_ok, extra_ok, flow_ok, period_ok, count_ok, jitter_ok, hops_ok};

const MAX_GUARD: u64 = 1_000_000;

const MAX_TOP: u64 = 100_000_000;

pub const MAX_PORT: u64 = 64;

const MAX_RATE: u64 = 100_000;

pub const MIN_LENGTH: u64 = 64;

pub const MAX_LENGTH: u64 = 2_000;

const MAX_EXTRA: u64 = 64;

pub const MAX_FLOW: u64 = 256;

const MIN_PERIOD: u64 = 1_000;

const MAX_PERIOD: u64 = 100_000_000;

const MAX_COUNT: u64 = 64;

const MAX_JITTER: u64 = 10_000_000;

pub const MAX_HOPS: u64 = 24;

// In a plan of the older form.
pub const OLDER_MAX_HOPS: u64 = 16;

pub fn between(lo: u64, hi: u64, n: u64) -> bool
    ensures { result ≡ within lo hi n }
{
    lo <= n && n <= hi
}

pub fn guard_ok(n: u32) -> bool
    ensures { result ≡ guard_ok n }
{
    between(0, MAX_GUARD, n as u64)
}

pub fn top_ok(n: u32) -> bool
    ensures { result ≡ top_ok n }
{
    between(1, MAX_TOP, n as u64)
}

pub fn port_ok(n: u16) -> bool
    ensures { result ≡ port_ok n }
{
    between(1, MAX_PORT, n as u64)
}

pub fn rate_ok(n: u32) -> bool
    ensures { result ≡ rate_ok n }
{
    between(1, MAX_RATE, n as u64)
}

pub fn length_ok(n: u16) -> bool
    ensures { result ≡ length_ok n }
{
    between(MIN_LENGTH, MAX_LENGTH, n as u64)
}

// 0 stands for no blocking frame.
pub fn blocking_ok(n: u16) -> bool
    ensures { result ≡ blocking_ok n }
{
    n == 0 || length_ok(n)
}

// The bytes that a port adds to each frame.
pub fn extra_ok(n: u16) -> bool
    ensures { result ≡ extra_ok n }
{
    between(0, MAX_EXTRA, n as u64)
}

pub fn flow_ok(n: u16) -> bool
    ensures { result ≡ flow_ok n }
{
    between(1, MAX_FLOW, n as u64)
}

pub fn period_ok(n: u32) -> bool
    ensures { result ≡ period_ok n }
{
    between(MIN_PERIOD, MAX_PERIOD, n as u64)
}

pub fn count_ok(n: u16) -> bool
    ensures { result ≡ count_ok n }
{
    between(1, MAX_COUNT, n as u64)
}

// The most ns that a frame is released after its nominal instant.
pub fn jitter_ok(n: u32) -> bool
    ensures { result ≡ jitter_ok n }
{
    between(0, MAX_JITTER, n as u64)
}

pub fn hops_ok(n: usize) -> bool
    ensures { result ≡ hops_ok n }
{
    between(1, MAX_HOPS, n as u64)
}
