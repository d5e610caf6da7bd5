// What a line says.
ghost use Rattle.std.specs.Prelude.{map, ◌≤◌, length, drop};
ghost use Rattle.cqf.specs.Limits.{max_hops};
ghost use Rattle.words.specs.Words.{words};
ghost use Rattle.plan_text.specs.Line.{form_by, words_by, port_words, kindly, line_of};
ghost use Rattle.plan_text.specs.Reading.{decoded, numbers_by, LineReads, KindReads};

use crate::grammar::{Fault, Item, Kind, is_word_of};
use crate::kinds::{is_other, is_routed, kind_in};
use crate::line::match_items;
use crate::ports::read_ports;
use crate::refusal::{LineRefusal, refused};
use crate::tested::test_numbers;
use words::word::word_at;

// A kind, with its numbers in an array and so many ports of a route in another.
#[derive(Clone, Copy)]
pub(crate) struct Says {
    pub kind: Kind,
    pub hops: usize,
}

// The words behind the numbers: none, or those of a route; then the other tests.
fn read_behind(
    newer: bool,
    kind: Kind,
    line: &[u8],
    at: usize,
    numbers: &[u64],
    route: &mut [u64],
) -> Result<Says, LineRefusal>
    requires { (at ≤ length line.now) × (max_hops ≤ length numbers.now) × (max_hops ≤ length route.old) }
    ensures { KindReads (form_by newer) (words_by (form_by newer) kind (map decoded (numbers_by kind numbers.now)) (port_words kind (words (drop at line.now)))) numbers.now route.new result }
{
    let word = word_at(line, at);
    if !is_routed(kind) {
        if word.start < word.end {
            return Err(refused(Fault::Word, Item::End));
        }
        return test_numbers(newer, kind, numbers, route, Some(0));
    }
    if word.end <= word.start || !is_word_of(Item::Route, &line[word.start..word.end]) {
        return Err(refused(Fault::Word, Item::Route));
    }
    let ports = read_ports(line, word.end, route);
    test_numbers(newer, kind, numbers, route, ports)
}

// A line of this kind, from behind its first word on.
fn read_kind(
    newer: bool,
    kind: Kind,
    line: &[u8],
    at: usize,
    numbers: &mut [u64],
    route: &mut [u64],
) -> Result<Says, LineRefusal>
    requires { (at ≤ length line.now) × (max_hops ≤ length numbers.old) × (max_hops ≤ length route.old) }
    ensures { KindReads (form_by newer) (kindly (form_by newer) kind (words (drop at line.now))) numbers.new route.new result }
{
    if is_other(kind) {
        return Err(refused(Fault::Word, Item::First));
    }
    match match_items(kind, line, at, numbers) {
        Err(item) => Err(refused(Fault::Word, item)),
        Ok(next) => read_behind(newer, kind, line, next, numbers, route),
    }
}

// A line of a text that asks for the newer form or not; begun tells whether another line stands before it. None where it says nothing.
pub(crate) fn read_line(
    newer: bool,
    begun: bool,
    line: &[u8],
    numbers: &mut [u64],
    route: &mut [u64],
) -> Result<Option<Says>, LineRefusal>
    requires { (max_hops ≤ length numbers.old) × (max_hops ≤ length route.old) }
    ensures { LineReads (form_by newer) (line_of (form_by newer) begun (words line.now)) numbers.new route.new result }
{
    let word = word_at(line, 0);
    if word.end <= word.start {
        return Ok(None);
    }
    let kind = kind_in(begun, &line[word.start..word.end]);
    let says = read_kind(newer, kind, line, word.end, numbers, route)?;
    Ok(Some(says))
}
