// A frame's bits on the wire.
ghost use Rattle.std.specs.Prelude.{◌≡◌};
ghost use Rattle.cqf.specs.Port.{bits_of, blocking_bits_of};

// Preamble and start delimiter 8 bytes, gap 12.
const OVERHEAD: u64 = 20;

// Extra is what the port adds to each frame, in bytes.
pub fn wire_bits(bytes: u16, extra: u8) -> u64
    ensures { result ≡ bits_of bytes extra }
{
    8 * (bytes as u64 + OVERHEAD + extra as u64)
}

// The same of a blocking frame: 0 stands for none.
pub fn blocking_bits(bytes: u16, extra: u8) -> u64
    ensures { result ≡ blocking_bits_of bytes extra }
{
    if bytes == 0 {
        0
    } else {
        wire_bits(bytes, extra)
    }
}
