// Whether something is absent that a field names, by what was marked as the fields were read.

ghost use Rattle.std.specs.Prelude.{◌≤◌, ◌≡◌, length};
ghost use Rattle.loading.specs.Loading.{lacking, any_absent};

use crate::store::{CLOCK_KEY, EXTRA_KEYS, FLOW_KEYS, JITTER_KEYS, KEYS, PORT_KEYS};
use tables::PORTS;

// Whether something has a mark for which there is no other. All marks are looked at, which takes fewer instructions than to stop at the first.
fn any_lacking(marks: &[u8], others: &[u8]) -> bool
    requires { length marks.now ≤ length others.now }
    ensures { result ≡ lacking marks.now others.now }
{
    let mut found = false;
    for i in 0..marks.len() {
        if others[i] < marks[i] {
            found = true;
        }
    }
    found
}

// Whether a port that a route names, or whose extra bytes were read, or a flow whose jitter was read, was itself not read.
pub(crate) fn any_absent(named: &[u8; PORTS], seen: &[u8; KEYS]) -> bool
    ensures { result ≡ any_absent named.now seen.now }
{
    let marks = &seen[..];
    let ports = &marks[PORT_KEYS..FLOW_KEYS];
    let flows = &marks[FLOW_KEYS..EXTRA_KEYS];
    any_lacking(&named[..], ports)
        || any_lacking(&marks[EXTRA_KEYS..JITTER_KEYS], ports)
        || any_lacking(&marks[JITTER_KEYS..CLOCK_KEY], flows)
}
