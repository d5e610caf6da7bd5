// From a position on: how far bytes of a kind reach. A position past the end is where they end.
ghost use Rattle.std.specs.Prelude.{◌≡◌, ◌+◌, ℕ, Bool, drop};
ghost use Rattle.words.specs.Run.{run};
ghost use Rattle.words.specs.Lines.{is_plain, is_in_line};
ghost use Rattle.words.specs.Words.{is_blank, is_in_word};

// ASCII.
const TAB: u8 = 9;

pub const LF: u8 = 10;

pub const CR: u8 = 13;

const SPACE: u8 = 32;

const HASH: u8 = 35;

// A byte that neither ends a line nor begins a comment.
fn is_plain(c: u8) -> bool
    ensures { result ≡ is_plain c }
{
    c != LF && c != HASH
}

fn is_in_line(c: u8) -> bool
    ensures { result ≡ is_in_line c }
{
    c != LF
}

fn is_blank(c: u8) -> bool
    ensures { result ≡ is_blank c }
{
    c == SPACE || c == TAB
}

fn is_in_word(c: u8) -> bool
    ensures { result ≡ is_in_word c }
{
    !is_blank(c)
}

// To the first byte that is not of the kind.
fn end_of<F: Fn(u8) -> bool>(text: &[u8], at: usize, is_kind: F) -> usize
    requires { F.IsAlwaysCallable is_kind }
    ensures { (test : ℕ → Bool) → ((c : ℕ) (b : Bool) → F.post is_kind c b → b ≡ test c) → result ≡ at + run test (drop at text.now) }
{
    for i in at..text.len() {
        if !is_kind(text[i]) {
            return i;
        }
    }
    at.max(text.len())
}

// To the end of the line, or to the comment at its end.
pub fn plain_end(text: &[u8], at: usize) -> usize
    ensures { result ≡ at + run is_plain (drop at text.now) }
{
    end_of(text, at, is_plain)
}

// To the end of the line.
pub fn line_end(text: &[u8], at: usize) -> usize
    ensures { result ≡ at + run is_in_line (drop at text.now) }
{
    end_of(text, at, is_in_line)
}

// Past spaces and tabs.
pub fn blank_end(text: &[u8], at: usize) -> usize
    ensures { result ≡ at + run is_blank (drop at text.now) }
{
    end_of(text, at, is_blank)
}

// To the next space or tab.
pub fn word_end(text: &[u8], at: usize) -> usize
    ensures { result ≡ at + run is_in_word (drop at text.now) }
{
    end_of(text, at, is_in_word)
}
