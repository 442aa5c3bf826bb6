//! Digits of values.

ghost use Rattle.std.specs.Prelude.{ℕ, ◌≡◌, ◌+◌, ◌*◌, ◌^◌, ◌<◌, ◌≤◌, MatchOption};
ghost use Rattle.lg_value.specs.Word.{IsWidth};
ghost use Rattle.lg_vectors.specs.CaredBits.{CaredBits};
ghost use Rattle.lg_vectors.specs.Values.{digit_value, is_digit, known_part, free_part, AreDigits, AreDecimals};

use crate::cared::Cared;

// The value of digits of `size` bits in a width.
pub fn read_digits(text: &[u8], size: u32, width: u32) -> Option<Cared>
    requires width { IsWidth width }
    requires size { (1 ≤ size) × (size ≤ 4) }
    ensures { MatchOption result
        ((value : CaredBits) → AreDigits size width text.now value → ⊥)
        (λ value. AreDigits size width text.now value) }
{
    let base = base(size);
    let most = greatest(width);
    let mut number = 0;
    let mut free: u64 = 0;
    for byte in text {
        if !is_digit(*byte, base) {
            return None;
        }
        number = with_digit(number, base, known_part(*byte), most)?;
        free = free.wrapping_mul(base).wrapping_add(free_part(*byte, base));
    }
    Some(Cared::but(width, number, free))
}

// The number of decimal digits, of which there are fewer than the width, if it is at most `most`.
pub fn read_decimals(text: &[u8], width: u32, most: u64) -> Option<u64>
    ensures { MatchOption result
        ((number : ℕ) → AreDecimals width text.now number → most < number)
        (λ number. AreDecimals width text.now number × (number ≤ most)) }
{
    if text.is_empty() || text.len() >= width as usize {
        return None;
    }
    let mut number = 0;
    for byte in text {
        let digit = digit_value(*byte);
        if digit >= 10 {
            return None;
        }
        number = with_digit(number, 10, digit, most)?;
    }
    Some(number)
}

// The greatest number of a width.
pub fn greatest(width: u32) -> u64
    requires { IsWidth width }
    ensures { result + 1 ≡ 2 ^ width }
{
    u64::MAX >> (64 - width)
}

// How many digits of so many bits there are.
fn base(size: u32) -> u64
    requires { (1 ≤ size) × (size ≤ 4) }
    ensures { result ≡ 2 ^ size }
{
    match size {
        1 => 2,
        2 => 4,
        3 => 8,
        _ => 16,
    }
}

// A number with one more digit behind it, if that is at most `most`.
fn with_digit(number: u64, base: u64, digit: u64, most: u64) -> Option<u64>
    ensures { MatchOption result
        (most < number * base + digit)
        (λ n. (n ≡ number * base + digit) × (n ≤ most)) }
{
    let next = number.checked_mul(base)?.checked_add(digit)?;
    if next <= most { Some(next) } else { None }
}

// The value of a digit, and 16 for any other character.
fn digit_value(byte: u8) -> u64
    ensures value { result ≡ digit_value byte }
    ensures small { result ≤ 16 }
{
    match byte {
        b'0'..=b'9' => (byte - b'0') as u64,
        b'a'..=b'f' => (byte - b'a' + 10) as u64,
        b'A'..=b'F' => (byte - b'A' + 10) as u64,
        _ => 16,
    }
}

fn is_digit(byte: u8, base: u64) -> bool
    ensures { (size : ℕ) → base ≡ 2 ^ size → result ≡ is_digit size byte }
{
    byte == b'x' || digit_value(byte) < base
}

fn known_part(byte: u8) -> u64
    ensures value { result ≡ known_part byte }
    ensures small { result ≤ 16 }
{
    if byte == b'x' { 0 } else { digit_value(byte) }
}

fn free_part(byte: u8, base: u64) -> u64
    requires { 1 ≤ base }
    ensures { (size : ℕ) → base ≡ 2 ^ size → result ≡ free_part size byte }
{
    if byte == b'x' { base - 1 } else { 0 }
}
