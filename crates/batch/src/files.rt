// A plan's file, read into a slot.
ghost use Rattle.std.specs.Prelude.{◌≤◌, length, IfSome};

use console::{ROOM, unheld};
use loading::Loaded;
use planner::{Batch, PlaceRefusal};
use std::env::Env;
use std::fs::File;
use streams::{Unheld, read_input};

// Of an argument that is looked at.
const LONGEST: usize = 4_096;

// The file that this argument names. An argument that is empty, longer than 4,095 bytes, or no UTF-8 text, names none.
fn read_file(rt: HostRuntime, word: usize, buffer: &mut [u8]) -> Option<usize>
    ensures { IfSome result (λ n. n ≤ length buffer.new) }
{
    let mut name = [0u8; LONGEST];
    let n = rt.arg(word, &mut name).ok()?;
    let path = str::from_utf8(&name[..n]).ok()?;
    let mut file = File::open(&rt, path).ok()?;
    read_input(&mut file, buffer).ok()
}

// The batch with the plan in this slot; as it was where the plan is not placed.
fn place_bytes(batch: &mut Batch, slot: usize, bytes: &[u8]) -> Result<Loaded, Unheld> {
    let outcome = planner::place(*batch, slot as u64, bytes);
    *batch = outcome.batch;
    let answer = outcome.answer;
    match answer {
        Ok(loaded) => Ok(loaded),
        Err(PlaceRefusal::Refused(refusal)) => Err(unheld(refusal)),
        Err(_) => Err(Unheld::Refused {
            number: planner::place_number(answer),
            place: 0,
        }),
    }
}

pub(crate) fn place_file(
    rt: HostRuntime,
    batch: &mut Batch,
    slot: usize,
    word: usize,
) -> Result<Loaded, Unheld> {
    let mut buffer = [0u8; ROOM];
    match read_file(rt, word, &mut buffer) {
        Some(n) => place_bytes(batch, slot, &buffer[..n]),
        None => Err(Unheld::Unreadable),
    }
}
