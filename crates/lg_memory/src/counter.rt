//! What a triggered counter holds, and its carry.

ghost use Rattle.std.specs.Prelude.{◌≡◌, ◌+◌, ◌^◌, ◌<◌, [], ◌∷◌, length, map};
ghost use Rattle.lg_value.specs.Word.{IsWidth, word_of_number};
ghost use Rattle.lg_memory.specs.Counter.{past_greatest, below_zero, counted, counter_word, carry};

use crate::form::Goal;
use crate::inputs::{bit_at, defined_number};
use lg_value::{Bit, Word};

// The word that a triggered counter holds, from the one before and its inputs.
pub fn counter_word(goal: Goal, width: u32, max: u64, held: &Word, inputs: &[Word]) -> Word
    requires width { IsWidth width }
    requires held { length held.now ≡ width }
    requires inputs { map length inputs.now ≡ width ∷ 1 ∷ 1 ∷ 1 ∷ 1 ∷ 1 ∷ [] }
    ensures word { result ≡ counter_word goal width max held.now inputs.now }
    ensures width { length result ≡ width }
{
    match (bit_at(inputs, 1), bit_at(inputs, 3)) {
        (Bit::One, _) => inputs[0],
        (_, Bit::Zero) => *held,
        _ => counted(
            goal,
            width,
            max,
            &inputs[0],
            bit_at(inputs, 2),
            defined_number(held),
        ),
    }
}

fn counted(goal: Goal, width: u32, max: u64, d: &Word, ud: Bit, number: Option<u64>) -> Word
    requires width { IsWidth width }
    requires d { length d.now ≡ width }
    ensures word { result ≡ counted goal width max d.now ud number }
    ensures width { length result ≡ width }
{
    match (ud, number) {
        (_, None) => Word::fill(width, Bit::Error),
        (Bit::Zero, Some(0)) => below_zero(goal, width, max, d),
        (Bit::Zero, Some(n)) => Word::from_number(width, n - 1),
        (_, Some(n)) if n == max => past_greatest(goal, width, max, d),
        (_, Some(n)) => next_word(width, n),
    }
}

fn past_greatest(goal: Goal, width: u32, max: u64, d: &Word) -> Word
    requires width { IsWidth width }
    requires d { length d.now ≡ width }
    ensures word { result ≡ past_greatest goal width max d.now }
    ensures width { length result ≡ width }
{
    match goal {
        Goal::Wrap => Word::from_number(width, 0),
        Goal::Stay => Word::from_number(width, max),
        Goal::Continue => next_word(width, max),
        Goal::Load => *d,
    }
}

fn below_zero(goal: Goal, width: u32, max: u64, d: &Word) -> Word
    requires width { IsWidth width }
    requires d { length d.now ≡ width }
    ensures word { result ≡ below_zero goal width max d.now }
    ensures width { length result ≡ width }
{
    match goal {
        Goal::Wrap => Word::from_number(width, max),
        Goal::Stay => Word::from_number(width, 0),
        Goal::Continue => Word::fill(width, Bit::One),
        Goal::Load => *d,
    }
}

// The word of the number after `n`, modulo 2 to the width.
fn next_word(width: u32, n: u64) -> Word
    requires { IsWidth width }
    ensures word { result ≡ word_of_number width (n + 1) }
    ensures width { length result ≡ width }
{
    Word::from_number(width, n.wrapping_add(1))
}

// Whether a counter stands at the end to which it counts.
pub fn carry(max: u64, ud: Bit, number: Option<u64>) -> Bit
    ensures { result ≡ carry max ud number }
{
    let end = if ud == Bit::Zero { 0 } else { max };
    match number {
        Some(n) if n == end => Bit::One,
        _ => Bit::Zero,
    }
}
