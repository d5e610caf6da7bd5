// Bytes, words and numbers, written from a position on; the answer is where the next ones begin.
ghost use Rattle.std.specs.Prelude.{[], ◌∷◌, ◌+◌, ◌≤◌, ◌<◌, length};
ghost use Rattle.plan_text.specs.Print.{digits_by};
ghost use Rattle.text_writing.specs.Puts.{Puts, farthest};

const ZERO: u8 = b'0';

pub(crate) fn put_byte(out: &mut [u8], at: usize, byte: u8) -> usize
    requires { at ≤ farthest }
    ensures { Puts 1 (byte ∷ []) out.old at result out.new }
{
    if at < out.len() {
        out[at] = byte;
    }
    at + 1
}

pub(crate) fn put_bytes(out: &mut [u8], at: usize, bytes: &[u8]) -> usize
    requires { at + length bytes.now ≤ farthest }
    ensures { Puts (length bytes.now) bytes.now out.old at result out.new }
{
    let mut next = at;
    for byte in bytes {
        next = put_byte(out, next, *byte);
    }
    next
}

// A number without leading zeros: its last digits, where it has more than the most.
pub(crate) fn put_digits(out: &mut [u8], at: usize, most: usize, n: u32) -> usize
    requires { at + most ≤ farthest }
    ensures { Puts most (digits_by most n) out.old at result out.new }
{
    if most == 0 {
        return at;
    }
    if n < 10 {
        return put_byte(out, at, ZERO + n as u8);
    }
    let next = put_digits(out, at, most - 1, n / 10);
    put_byte(out, next, ZERO + (n % 10) as u8)
}

// The same of a number of two digits: most ports have such.
pub(crate) fn put_two(out: &mut [u8], at: usize, most: usize, n: u32) -> usize
    requires { (at < farthest) × (2 ≤ most) × (10 ≤ n) × (n < 100) }
    ensures { Puts most (digits_by most n) out.old at result out.new }
{
    let next = put_byte(out, at, ZERO + (n / 10) as u8);
    put_byte(out, next, ZERO + (n % 10) as u8)
}

// A number by either.
pub(crate) fn put_decimal(out: &mut [u8], at: usize, most: usize, n: u32) -> usize
    requires { (at + most ≤ farthest) × (2 ≤ most) }
    ensures { Puts most (digits_by most n) out.old at result out.new }
{
    if 10 <= n && n < 100 {
        put_two(out, at, most, n)
    } else {
        put_digits(out, at, most, n)
    }
}
