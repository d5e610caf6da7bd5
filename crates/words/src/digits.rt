// A number written in decimal digits.
ghost use Rattle.std.specs.Prelude.{◌≡◌, ◌+◌, ◌*◌, ◌≤◌};
ghost use Rattle.words.specs.Decimal.{capped_at, decimal_at, parsed_of};

// One digit more.
fn with_digit<const MOST: u64>(value: u64, digit: u8) -> u64
    ensures { result ≡ capped_at MOST (10 * value + digit) }
{
    value
        .saturating_mul(10)
        .saturating_add(digit as u64)
        .min(MOST)
}

// The number of a text of digits alone, one at least; MOST stands for any that is larger.
pub fn decimal<const MOST: u64>(text: &[u8]) -> Option<u64>
    ensures { parsed_of result ≡ decimal_at MOST text.now }
{
    if text.is_empty() {
        return None;
    }
    let mut value: u64 = 0;
    for digit in text {
        if *digit < b'0' || b'9' < *digit {
            return None;
        }
        value = with_digit::<MOST>(value, *digit - b'0');
    }
    Some(value)
}
