// Numbers of several bytes, high byte first.

ghost use Rattle.std.specs.Prelude.{◌≡◌, ◌+◌, ◌<◌, length};
ghost use Rattle.plan.specs.Bytes.{number2, number4};

pub(crate) fn be16(s: &[u8], i: usize) -> u16
    requires { i + 1 < length s.now }
    ensures { result ≡ number2 s.now i }
{
    u16::from_be_bytes([s[i], s[i + 1]])
}

pub(crate) fn be32(s: &[u8], i: usize) -> u32
    requires { i + 3 < length s.now }
    ensures { result ≡ number4 s.now i }
{
    u32::from_be_bytes([s[i], s[i + 1], s[i + 2], s[i + 3]])
}

// The number of 2 bytes that a value begins with; a byte that is missing counts as 0.
pub fn first_number(value: &[u8]) -> u16
    ensures { result ≡ number2 value.now 0 }
{
    match value {
        [] => 0,
        [high] => u16::from(*high) * 256,
        [_, _, ..] => be16(value, 0),
    }
}
