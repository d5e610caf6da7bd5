// The ports of a route, read from a position on.
ghost use Rattle.std.specs.Prelude.{◌≤◌, length, drop};
ghost use Rattle.cqf.specs.Limits.{max_hops};
ghost use Rattle.words.specs.Words.{words};
ghost use Rattle.plan_text.specs.Reading.{PortsAs};

use crate::line::MOST;
use words::digits::decimal;
use words::word::word_at;

// How many they are, unless one of them is no number. All of them are read, and the first are stored.
pub(crate) fn read_ports(line: &[u8], at: usize, route: &mut [u64]) -> Option<usize>
    requires { (at ≤ length line.now) × (max_hops ≤ length route.old) }
    ensures { PortsAs (words (drop at line.now)) route.new result }
{
    let mut count: usize = 0;
    let mut next = at;
    loop {
        let word = word_at(line, next);
        if word.end <= word.start {
            return Some(count);
        }
        let port = decimal::<MOST>(&line[word.start..word.end])?;
        if count < route.len() {
            route[count] = port;
        }
        count += 1;
        next = word.end;
    }
}
