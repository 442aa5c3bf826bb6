//! Shifts and rolls.

ghost use Rattle.std.specs.Prelude.{◌≡◌, ◌≤◌, length};
ghost use Rattle.lg_arith.specs.Shift.{moved_left, moved_right, turned, shift_of};

use crate::operand::{are_defined, top_bit};
use lg_value::{Bit, Word};

/// How a shifter moves bits. Left is toward the higher places.
#[derive(Clone, Copy, Debug, PartialEq, Eq)]
pub enum ShiftKind {
    /// To the left, with zeros below.
    Left,
    /// To the right, with zeros above.
    Right,
    /// To the right, with copies of the top bit above.
    Arith,
    /// To the left, and the bits that fall out come in below.
    RollLeft,
    /// To the right, and the bits that fall out come in above.
    RollRight,
}

// The bits moved up by a distance, with zeros below.
fn moved_left(a: &Word, distance: u64) -> Word
    ensures bits { result ≡ moved_left a.now distance }
    ensures width { length result ≡ length a.now }
{
    let width = a.width();
    if distance >= u64::from(width) {
        return Word::fill(width, Bit::Zero);
    }
    let distance = distance as u32;
    if distance == 0 {
        return *a;
    }
    Word::fill(distance, Bit::Zero).glue(&a.cut(0, width - distance))
}

// The bits moved down by a distance, with `above` in the places above.
fn moved_right(a: &Word, distance: u64, above: Bit) -> Word
    ensures bits { result ≡ moved_right above a.now distance }
    ensures width { length result ≡ length a.now }
{
    let width = a.width();
    if distance >= u64::from(width) {
        return Word::fill(width, above);
    }
    let distance = distance as u32;
    if distance == 0 {
        return *a;
    }
    a.cut(distance, width - distance)
        .glue(&Word::fill(distance, above))
}

// The bits from a place on, and then those below it.
fn turned(a: &Word, place: u32) -> Word
    requires { place ≤ length a.now }
    ensures bits { result ≡ turned a.now place }
    ensures width { length result ≡ length a.now }
{
    let width = a.width();
    if place == 0 || place == width {
        return *a;
    }
    a.cut(place, width - place).glue(&a.cut(0, place))
}

/// The word `a` shifted or rolled by a distance, a word of any width. A shift by the width or more
/// leaves no bit of `a`, and a roll goes modulo the width.
///
/// A bit that is not Zero or One makes every bit of the output an error.
pub fn shift(kind: ShiftKind, a: &Word, distance: &Word) -> Word
    ensures shifted { result ≡ shift_of kind a.now distance.now }
    ensures width { length result ≡ length a.now }
{
    let width = a.width();
    if !are_defined(&[*a, *distance]) {
        return Word::fill(width, Bit::Error);
    }
    let distance = distance.number();
    let turn = (distance % u64::from(width)) as u32;
    match kind {
        ShiftKind::Left => moved_left(a, distance),
        ShiftKind::Right => moved_right(a, distance, Bit::Zero),
        ShiftKind::Arith => moved_right(a, distance, top_bit(a)),
        ShiftKind::RollLeft => turned(a, width - turn),
        ShiftKind::RollRight => turned(a, turn),
    }
}
