//! Priority encoders.

ghost use Rattle.std.specs.Prelude.{◌≡◌, ◌^◌, ◌≤◌, ◌<◌, length, None, Some, IfSome, if◌then◌else◌};
ghost use Rattle.lg_gates.specs.Gate.{some_one, all_defined};
ghost use Rattle.lg_gates.specs.Priority.{greatest_one, priority_of};

use lg_value::{Bit, Word};

// Whether no bit is undefined.
fn all_defined(bits: &[Bit]) -> bool
    ensures { result ≡ all_defined bits.now }
{
    bits.iter().all(|bit| matches!(bit, Bit::Zero | Bit::One))
}

// The greatest place that holds a 1, if some place does.
fn greatest_one(bits: &[Bit]) -> Option<usize>
    ensures place { result ≡ (if some_one bits.now then Some (greatest_one bits.now) else None) }
    ensures inside { IfSome result (λ place. place < length bits.now) }
{
    let mut greatest = None;
    for (place, bit) in bits.iter().enumerate() {
        if let Bit::One = bit {
            greatest = Some(place);
        }
    }
    greatest
}

/// What a priority encoder answers: the address, the group bit and the enable output. The address is
/// the number of the greatest input that is 1. An undefined input, or an enable that is an error, puts
/// all three in error; a floating enable counts as 1. `off` is each bit of the address where none is due.
/// The width of the address, `select`, is 1 to 5, and there are 2 to that power inputs.
pub fn priority(inputs: &[Bit], enable: Bit, select: u32, off: Bit) -> (Word, Bit, Bit)
    requires some { 1 ≤ select }
    requires few { select ≤ 5 }
    requires count { length inputs.now ≡ 2 ^ select }
    ensures outputs { result ≡ priority_of inputs.now enable select off }
    ensures width { length result.0 ≡ select }
{
    let error = (Word::fill(select, Bit::Error), Bit::Error, Bit::Error);
    if !all_defined(inputs) {
        return error;
    }
    match enable {
        Bit::Error => error,
        Bit::Zero => (Word::fill(select, off), Bit::Zero, Bit::Zero),
        Bit::One | Bit::Unknown => match greatest_one(inputs) {
            Some(place) => (Word::from_number(select, place as u64), Bit::One, Bit::Zero),
            None => (Word::fill(select, off), Bit::Zero, Bit::One),
        },
    }
}
