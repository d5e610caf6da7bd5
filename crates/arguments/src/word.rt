// Whether a text is a word.
ghost use Rattle.std.specs.Prelude.{◌≡◌, true, ◌↔◌};

pub fn same(text: &[u8], word: &[u8]) -> bool
    ensures { (result ≡ true) ↔ (text.now ≡ word.now) }
{
    text == word
}
