//! Points in the text of attributes.

ghost use denote.Bor.{Bor};
ghost use Rattle.std.specs.Prelude.{◌≡◌, ◌≤◌, ◌<◌, ◌==◌, List, ℕ, length, IfSome, option_map};
ghost use Rattle.std.specs.List.{before_first, after_first};
ghost use Rattle.lg_circ.specs.Meaning.{decimal_of, size_of, coordinate_of, before_end, coordinates_of, point_of};

use crate::project::Point;

/// How many digits a coordinate has at most.
const MOST_DIGITS: usize = 7;

/// The point of a text: `(x,y)` without spaces.
pub fn point(text: &str) -> Option<Point>
    ensures { result ≡ point_of text.now }
{
    match text.strip_prefix('(') {
        Some(rest) => coordinates(rest),
        None => None,
    }
}

fn coordinates(text: &str) -> Option<Point>
    ensures { result ≡ coordinates_of text.now }
{
    let (x, rest) = halves(text);
    let x = coordinate(x)?;
    let y = coordinate(inside(rest)?)?;
    Some(Point { x, y })
}

/// What stands before the first comma and after it.
fn halves(text: &str) -> (&str, &str)
    ensures before { result.0.now ≡ before_first (λ d. d == 44) text.now }
    ensures after { result.1.now ≡ after_first (λ d. d == 44) text.now }
{
    text.split_once(',').unwrap_or((text, ""))
}

/// What stands before a `)` that is the end.
fn inside(text: &str) -> Option<&str>
    ensures { option_map (λ (t : Bor (List ℕ)). t.now) result ≡ before_end text.now }
{
    let (front, end) = text.split_once(')')?;
    if end.is_empty() { Some(front) } else { None }
}

fn coordinate(text: &str) -> Option<i32>
    ensures { result ≡ coordinate_of text.now }
{
    match text.strip_prefix('-') {
        Some(digits) => Some(-(size(digits)? as i32)),
        None => Some(size(text)? as i32),
    }
}

fn size(digits: &str) -> Option<u32>
    ensures value { result ≡ size_of digits.now }
    ensures small { IfSome result (λ n. n < 10000000) }
{
    if digits.len() <= MOST_DIGITS {
        number(digits.as_bytes())
    } else {
        None
    }
}

/// A number in decimal digits, of which there is at least one.
fn number(digits: &[u8]) -> Option<u32>
    requires { length digits.now ≤ MOST_DIGITS }
    ensures value { result ≡ decimal_of digits.now }
    ensures small { IfSome result (λ n. n < 10000000) }
{
    if digits.is_empty() {
        return None;
    }
    let mut number: u32 = 0;
    for c in digits {
        if !c.is_ascii_digit() {
            return None;
        }
        number = 10 * number + u32::from(*c - b'0');
    }
    Some(number)
}
