// One of several texts, which stand in one with a bar between every two.
ghost use Rattle.std.specs.Prelude.{◌≤◌, length};

use std::io;

const BAR: u8 = b'|';

// Where a text has a byte at or behind a position; its length where it has none.
fn next(text: &[u8], byte: u8, from: usize) -> usize
    requires { from ≤ length text.now }
    ensures lower_bound { from ≤ result }
    ensures upper_bound { result ≤ length text.now }
{
    for at in from..text.len() {
        if text[at] == byte {
            return at;
        }
    }
    text.len()
}

// Where the text of this number begins, the first being 0; behind all where there is none.
fn start_of(texts: &[u8], n: usize) -> usize
    ensures { result ≤ length texts.now }
{
    let mut at = 0;
    let mut bars = n;
    while at < texts.len() {
        if bars == 0 {
            return at;
        }
        if texts[at] == BAR {
            bars -= 1;
        }
        at += 1;
    }
    at
}

pub fn say_choice(out: &impl Print, texts: &[u8], n: usize) -> io::Result<()> {
    let start = start_of(texts, n);
    let end = next(texts, BAR, start);
    out.write_all(&texts[start..end])
}
