// Whether there is room for what is to be written.
ghost use Rattle.std.specs.Prelude.{◌≡◌, leb};

// Whether a buffer of this length has room for so many bytes.
pub fn has_room(size: usize, needed: usize) -> bool
    ensures { result ≡ leb needed size }
{
    needed <= size
}
