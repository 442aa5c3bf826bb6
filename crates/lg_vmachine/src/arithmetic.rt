//! Operations on numbers of up to 128 bits.

ghost use Rattle.std.specs.Prelude.{◌≡◌, ◌-◌, ◌*◌, ◌/◌, ◌%◌, ◌^◌, min};
ghost use Rattle.lg_vmachine.specs.Terms.{wide_operation};

use lg_vtree::Operator;

// The greatest number of a width.
fn mask(width: u128) -> u128
    ensures { result ≡ 2 ^ min width 128 - 1 }
{
    if width >= 128 {
        u128::MAX
    } else {
        (1 << width) - 1
    }
}

/// The lowest bits of a number, so many as the width has.
pub fn cut(width: u128, number: u128) -> u128
    ensures { result ≡ number % 2 ^ width }
{
    number & mask(width)
}

/// All bits of the width that the number does not have.
pub fn complement(width: u128, number: u128) -> u128
    ensures { result ≡ 2 ^ min width 128 - 1 - number }
{
    mask(width).saturating_sub(number)
}

/// The number shifted up; what leaves 128 bits is lost.
pub fn shift_left(number: u128, by: u128) -> u128
    ensures { result ≡ (number * 2 ^ by) % 2 ^ 128 }
{
    if by < 128 { number << by } else { 0 }
}

/// The number shifted down.
pub fn shift_right(number: u128, by: u128) -> u128
    ensures { result ≡ number / 2 ^ by }
{
    if by < 128 { number >> by } else { 0 }
}

/// An operation in a width of at most 128 bits.
pub fn operate(operator: Operator, width: u128, left: u128, right: u128) -> u128
    ensures { result ≡ wide_operation operator width left right }
{
    match operator {
        Operator::And => left & right,
        Operator::Or => left | right,
        Operator::Xor => left ^ right,
        Operator::Add => cut(width, left.wrapping_add(right)),
        Operator::Subtract => cut(width, left.wrapping_sub(right)),
        Operator::Multiply => cut(width, left.wrapping_mul(right)),
        Operator::Divide => left.checked_div(right).unwrap_or(0),
        Operator::Remainder => left.checked_rem(right).unwrap_or(left),
        Operator::Equal => u128::from(left == right),
        Operator::Less => u128::from(left < right),
        Operator::ShiftLeft => cut(width, shift_left(left, right)),
        Operator::ShiftRight => shift_right(left, right),
    }
}
