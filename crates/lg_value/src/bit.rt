//! One bit of four-valued logic, and the join of two drivers.

ghost use Rattle.std.specs.Prelude.{◌≡◌, List, [], ◌∷◌, ◌++◌};
ghost use Rattle.std.specs.List.Sorted.{IsPermutation};
ghost use Rattle.lg_value.specs.declared.bit.Bit.{Bit as Value};
ghost use Rattle.lg_value.specs.Bit.{join_bits};
ghost use Rattle.lg_value.specs.Drivers.{join_of_drivers, joined_in_turn};

/// What one wire carries.
#[derive(Clone, Copy, Debug, PartialEq, Eq)]
pub enum Bit {
    /// Low.
    Zero,
    /// High.
    One,
    /// Floating: nothing drives the wire.
    Unknown,
    /// The wire's drivers disagree, or a part could not tell its output.
    Error,
}

/// The bit of a wire that two drivers share. Unknown yields to the other, equal bits stay, and all
/// else is an error.
#[tactic(auto, using(crate::proofs::DriverLemmas::join_of_drivers_pair))]
pub fn join_bits(a: Bit, b: Bit) -> Bit
    ensures pair { result ≡ join_bits a b }
    ensures drivers { result ≡ join_of_drivers (a ∷ b ∷ []) }
{
    match (a, b) {
        (Bit::Unknown, other) | (other, Bit::Unknown) => other,
        (Bit::Zero, Bit::Zero) => Bit::Zero,
        (Bit::One, Bit::One) => Bit::One,
        _ => Bit::Error,
    }
}

/// A law: drivers that are joined two at a time give the join of all of them, in any order and in
/// any parts.
pub fn join_is_order_free()
    ensures in_turn { (drivers : List Value) → joined_in_turn drivers ≡ join_of_drivers drivers }
    ensures any_order { (drivers other : List Value)
        → IsPermutation drivers other → joined_in_turn other ≡ join_of_drivers drivers }
    ensures parts { (low more : List Value)
        → join_of_drivers (low ++ more) ≡ join_bits (join_of_drivers low) (join_of_drivers more) }
{}
