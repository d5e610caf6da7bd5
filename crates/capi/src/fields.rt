// The writers of single fields. Each writes into what remains of a buffer, and a refusal writes nothing.
ghost use Rattle.std.specs.Prelude.{◌≡◌, [], ◌∷◌};
ghost use Rattle.plan.specs.Layout.{Kind};
ghost use Rattle.field_writing.specs.Writes.{write_answer, write_leaves};
ghost use Rattle.capi.specs.Numbers.{written_numbers};

use crate::AnswerNumbers;
use field_writing::{
    write_clocks, write_extra, write_flow, write_flow2, write_header, write_header2, write_jitter,
    write_port, write_port2,
};

#[unsafe(no_mangle)]
pub extern "C" fn cp_write_header_bytes(guard: u32, top: u32, buffer: &mut [u8]) -> AnswerNumbers
    ensures { (result ≡ written_numbers (write_answer Kind.header (guard ∷ top ∷ []) [] buffer.old))
        × (buffer.new ≡ write_leaves Kind.header (guard ∷ top ∷ []) [] buffer.old) }
{
    AnswerNumbers::from(write_header(guard, top, buffer))
}

#[unsafe(no_mangle)]
pub extern "C" fn cp_write_port_bytes(
    number: u32,
    rate: u32,
    blocking: u32,
    buffer: &mut [u8],
) -> AnswerNumbers
    ensures { (result ≡ written_numbers (write_answer Kind.port (number ∷ rate ∷ blocking ∷ []) [] buffer.old))
        × (buffer.new ≡ write_leaves Kind.port (number ∷ rate ∷ blocking ∷ []) [] buffer.old) }
{
    AnswerNumbers::from(write_port(number, rate, blocking, buffer))
}

#[unsafe(no_mangle)]
pub extern "C" fn cp_write_extra_bytes(number: u32, extra: u32, buffer: &mut [u8]) -> AnswerNumbers
    ensures { (result ≡ written_numbers (write_answer Kind.extra (number ∷ extra ∷ []) [] buffer.old))
        × (buffer.new ≡ write_leaves Kind.extra (number ∷ extra ∷ []) [] buffer.old) }
{
    AnswerNumbers::from(write_extra(number, extra, buffer))
}

#[unsafe(no_mangle)]
pub extern "C" fn cp_write_jitter_bytes(
    number: u32,
    jitter: u32,
    buffer: &mut [u8],
) -> AnswerNumbers
    ensures { (result ≡ written_numbers (write_answer Kind.jitter (number ∷ jitter ∷ []) [] buffer.old))
        × (buffer.new ≡ write_leaves Kind.jitter (number ∷ jitter ∷ []) [] buffer.old) }
{
    AnswerNumbers::from(write_jitter(number, jitter, buffer))
}

#[unsafe(no_mangle)]
pub extern "C" fn cp_write_clocks_bytes(
    drift: u32,
    timing_jitter: u32,
    sync_error: u32,
    buffer: &mut [u8],
) -> AnswerNumbers
    ensures { (result ≡ written_numbers (write_answer Kind.clock (drift ∷ timing_jitter ∷ sync_error ∷ []) [] buffer.old))
        × (buffer.new ≡ write_leaves Kind.clock (drift ∷ timing_jitter ∷ sync_error ∷ []) [] buffer.old) }
{
    AnswerNumbers::from(write_clocks(drift, timing_jitter, sync_error, buffer))
}

#[unsafe(no_mangle)]
pub extern "C" fn cp_write_flow_bytes(
    number: u32,
    period: u32,
    count: u32,
    length: u32,
    route: &[u8],
    buffer: &mut [u8],
) -> AnswerNumbers
    ensures { (result ≡ written_numbers (write_answer Kind.flow (number ∷ period ∷ count ∷ length ∷ []) route.now buffer.old))
        × (buffer.new ≡ write_leaves Kind.flow (number ∷ period ∷ count ∷ length ∷ []) route.now buffer.old) }
{
    AnswerNumbers::from(write_flow(number, period, count, length, route, buffer))
}

#[unsafe(no_mangle)]
pub extern "C" fn cp_write_header2_bytes(
    guard: u32,
    top: u32,
    drift: u32,
    timing_jitter: u32,
    sync_error: u32,
    buffer: &mut [u8],
) -> AnswerNumbers
    ensures { (result ≡ written_numbers (write_answer Kind.header2 (guard ∷ top ∷ drift ∷ timing_jitter ∷ sync_error ∷ []) [] buffer.old))
        × (buffer.new ≡ write_leaves Kind.header2 (guard ∷ top ∷ drift ∷ timing_jitter ∷ sync_error ∷ []) [] buffer.old) }
{
    AnswerNumbers::from(write_header2(guard, top, drift, timing_jitter, sync_error, buffer))
}

#[unsafe(no_mangle)]
pub extern "C" fn cp_write_port2_bytes(
    number: u32,
    rate: u32,
    blocking: u32,
    extra: u32,
    buffer: &mut [u8],
) -> AnswerNumbers
    ensures { (result ≡ written_numbers (write_answer Kind.port2 (number ∷ rate ∷ blocking ∷ extra ∷ []) [] buffer.old))
        × (buffer.new ≡ write_leaves Kind.port2 (number ∷ rate ∷ blocking ∷ extra ∷ []) [] buffer.old) }
{
    AnswerNumbers::from(write_port2(number, rate, blocking, extra, buffer))
}

#[unsafe(no_mangle)]
pub extern "C" fn cp_write_flow2_bytes(
    number: u32,
    period: u32,
    count: u32,
    length: u32,
    jitter: u32,
    route: &[u8],
    buffer: &mut [u8],
) -> AnswerNumbers
    ensures { (result ≡ written_numbers (write_answer Kind.flow2 (number ∷ period ∷ count ∷ length ∷ jitter ∷ []) route.now buffer.old))
        × (buffer.new ≡ write_leaves Kind.flow2 (number ∷ period ∷ count ∷ length ∷ jitter ∷ []) route.now buffer.old) }
{
    AnswerNumbers::from(write_flow2(number, period, count, length, jitter, route, buffer))
}
