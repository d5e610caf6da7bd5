// All lines of a plan.
ghost use Rattle.std.specs.Prelude.{◌≡◌, [], ◌≤◌};
ghost use Rattle.cqf.specs.Plan.{clocks_equal};
ghost use Rattle.numbers.specs.Clock.{clock_of};
ghost use Rattle.plan.specs.Answer.{form_of};
ghost use Rattle.plan_text.specs.Print.{form_line, lines_bytes, text_of};
ghost use Rattle.tables.specs.Columns.{columns};
ghost use Rattle.tables.specs.Lent.{plan_lent};
ghost use Rattle.text_writing.specs.Puts.{Puts, far_text};
ghost use Rattle.text_writing.specs.Bytes.{clocks_bytes, clocks_at, most_form, most_clocks, most_text};

use crate::flow::put_flows;
use crate::number::put_bytes;
use crate::port::put_ports;
use crate::word::{put_end, put_line, put_pair};
use numbers::clock::Clock;
use plan::Form;
use tables::Held;

// The line of the form; the older one has none.
fn put_form(form: Form, out: &mut [u8]) -> usize
    ensures { Puts most_form (lines_bytes (form_line (form_of form))) out.old 0 result out.new }
{
    match form {
        Form::Older => 0,
        Form::Newer => put_line(out, 0, b"format", 2),
    }
}

// Whether all three numbers are 0.
fn clocks_equal(clock: Clock) -> bool
    ensures { result ≡ clocks_equal (columns (clock_of clock) [] [] [] [] [] [] [] [] []) }
{
    clock.drift == 0 && clock.timing_jitter == 0 && clock.sync_error == 0
}

fn put_clock_numbers(clock: Clock, out: &mut [u8], at: usize) -> usize
    requires { at ≤ far_text }
    ensures { Puts most_clocks (clocks_bytes (clock_of clock)) out.old at result out.new }
{
    let named = put_bytes(out, at, b"clocks");
    let drifting = put_pair(out, named, b"drift", clock.drift);
    let jittering = put_pair(out, drifting, b"timing", clock.timing_jitter);
    let apart = put_pair(out, jittering, b"sync", clock.sync_error);
    put_end(out, apart)
}

// The line of the clocks; none where they are equal.
fn put_clocks(clock: Clock, out: &mut [u8], at: usize) -> usize
    requires { at ≤ far_text }
    ensures { Puts most_clocks (lines_bytes (clocks_at (columns (clock_of clock) [] [] [] [] [] [] [] [] []))) out.old at result out.new }
{
    if clocks_equal(clock) {
        at
    } else {
        put_clock_numbers(clock, out, at)
    }
}

// Each line behind those before it; the answer is how many bytes they are.
pub(crate) fn put_text(form: Form, held: Held, out: &mut [u8]) -> usize
    ensures { Puts most_text (text_of (form_of form) (plan_lent held.entry.lent)) out.old 0 result out.new }
{
    let lent = held.lent;
    let formed = put_form(form, out);
    let guarded = put_line(out, formed, b"guard", lent.guard);
    let topped = put_line(out, guarded, b"top", lent.top);
    let ported = put_ports(held, out, topped);
    let flowing = put_flows(held, out, ported);
    put_clocks(lent.clock, out, flowing)
}
