// A number written in decimal digits. One that is too large for 64 bits counts as the largest: no duration and no queue is that.
ghost use Rattle.std.specs.Prelude.{◌≡◌, ◌+◌, ◌*◌, ◌≤◌};
ghost use Rattle.words.specs.Decimal.{capped_at, parsed_of};
ghost use Rattle.arguments.specs.Decimal.{largest, decimal_value};

const MOST: u64 = 18_446_744_073_709_551_615;

// One digit more.
fn with_digit(value: u64, digit: u8) -> u64
    requires { digit ≤ 9 }
    ensures { result ≡ capped_at largest (10 * value + digit) }
{
    let room = MOST - (digit as u64);
    if room / 10 < value {
        return MOST;
    }
    10 * value + (digit as u64)
}

pub fn decimal(text: &[u8]) -> Option<u64>
    ensures { parsed_of result ≡ decimal_value text.now }
{
    if text.is_empty() {
        return None;
    }
    let mut value: u64 = 0;
    for digit in text {
        if *digit < b'0' {
            return None;
        }
        if b'9' < *digit {
            return None;
        }
        value = with_digit(value, *digit - b'0');
    }
    Some(value)
}
