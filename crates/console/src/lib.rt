// The programs' input: the plan on standard input, loaded into the empty planner; and what the converters print.
#![tactic(auto)]

mod held; // held.rt: a plan of the input that is held

ghost use Rattle.std.specs.Prelude.{◌≡◌, ◌≤◌, length, IfSome};
ghost use Rattle.plan.specs.Answer.{fault_number};
ghost use Rattle.streams.specs.declared.output.Unheld.{Unheld};
ghost use Rattle.console.specs.{LoadedAs, LoadedInput, HeldAs, HeldInputAs, Inside};

pub use held::HeldPlan;
use plan::{Refusal, fault_number};
use planner::{ConvertRefusal, LoadOutcome, convert_number};
use streams::{Unheld, complain, finish, read_input};

// One byte more than a plan may have: a longer input is read no further.
pub const ROOM: usize = loading::MAX_BYTES + 1;

fn place_of(refusal: ConvertRefusal) -> usize {
    match refusal {
        ConvertRefusal::Refused(refusal) => refusal.offset,
        ConvertRefusal::LongRoute(offset) => offset,
        ConvertRefusal::ShortBuffer(needed) => needed,
    }
}

// What a converter gave: the bytes that it wrote in front of the buffer, or what it refused.
pub fn say_converted(rt: HostRuntime, answer: Result<usize, ConvertRefusal>, buffer: &[u8])
    requires { Inside (length buffer.now) answer }
{
    match answer {
        Ok(size) => finish(&rt, rt.write_all(&buffer[..size])),
        Err(refusal) => {
            let number = convert_number(answer);
            let place = place_of(refusal);
            complain(&rt, Unheld::Refused { number, place });
        }
    }
}

// Why a load is refused, as the programs say it.
pub fn unheld(refusal: Refusal) -> Unheld
    ensures { result ≡ Unheld.Refused (fault_number refusal.fault) refusal.offset }
{
    Unheld::Refused {
        number: u32::from(fault_number(refusal.fault)),
        place: refusal.offset,
    }
}

fn load_read(read: Option<usize>, buffer: &[u8]) -> Option<LoadOutcome>
    requires { IfSome read (λ n. n ≤ length buffer.now) }
    ensures { LoadedAs buffer.now read result }
{
    let n = read?;
    Some(planner::load(planner::empty(), &buffer[..n]))
}

// The planner is the one that a load of the bytes read leaves, and the answer is that load's; none where nothing could be read.
pub fn given_plan(rt: HostRuntime) -> Option<LoadOutcome>
    ensures { LoadedInput result }
{
    let mut buffer = [0u8; ROOM];
    let read = read_input(&mut rt.stdin(), &mut buffer).ok();
    load_read(read, &buffer)
}

fn held_of(given: Option<LoadOutcome>) -> Result<HeldPlan, Unheld>
    requires { LoadedInput given }
    ensures { HeldAs given result }
{
    let Some(outcome) = given else {
        return Err(Unheld::Unreadable);
    };
    match outcome.answer {
        Ok(loaded) => Ok(HeldPlan {
            planner: outcome.planner,
            loaded,
        }),
        Err(refusal) => Err(unheld(refusal)),
    }
}

// The plan of the input, or why none is held.
pub fn held_plan(rt: HostRuntime) -> Result<HeldPlan, Unheld>
    ensures { HeldInputAs result }
{
    held_of(given_plan(rt))
}
