//! Numbers in decimal and hexadecimal digits.

ghost use Rattle.std.specs.Prelude.{ℕ, ◌≡◌, ◌+◌, ◌*◌, ◌<◌, ◌≤◌, MatchOption};
ghost use Rattle.lg_memory.specs.Image.{digit_value, Spells};

/// The number that digits are in a base of 1 to 16, the highest digit first and hexadecimal ones in either case, if the
/// text is digits, one at least, and the number is at most `most`.
pub fn read_number(text: &[u8], base: u64, most: u64) -> Option<u64>
    requires { (1 ≤ base) × (base ≤ 16) }
    ensures { MatchOption result
        ((n : ℕ) → Spells base text.now n → most < n)
        (λ n. Spells base text.now n × (n ≤ most)) }
{
    if text.is_empty() {
        return None;
    }
    let mut number = 0;
    for byte in text {
        let digit = digit_value(*byte);
        if digit >= base {
            return None;
        }
        number = with_digit(number, base, digit, most)?;
    }
    Some(number)
}

// A number with one more digit behind it, if that is at most `most`.
fn with_digit(number: u64, base: u64, digit: u64, most: u64) -> Option<u64>
    ensures { MatchOption result
        (most < base * number + digit)
        (λ n. (n ≡ base * number + digit) × (n ≤ most)) }
{
    let next = number.checked_mul(base)?.checked_add(digit)?;
    if next <= most { Some(next) } else { None }
}

// The value of a digit, and 16 for any other character.
fn digit_value(byte: u8) -> u64
    ensures value { result ≡ digit_value byte }
    ensures small { result ≤ 16 }
{
    match byte {
        b'0'..=b'9' => (byte - b'0') as u64,
        b'a'..=b'f' => (byte - b'a' + 10) as u64,
        b'A'..=b'F' => (byte - b'A' + 10) as u64,
        _ => 16,
    }
}
