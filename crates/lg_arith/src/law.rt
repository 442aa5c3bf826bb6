//! Laws of arithmetic, of all words that are defined.

ghost use Rattle.std.specs.Prelude.{◌≡◌, ◌≢◌, ℕ, ◌+◌, ◌-◌, ◌*◌, ◌/◌, ◌%◌, ◌^◌, ◌<◌, ◌≤◌, Bool, true, List, [], ◌∷◌, length, replicate, All};
ghost use Rattle.lg_value.specs.declared.bit.Bit.{Bit};
ghost use Rattle.lg_value.specs.declared.bit.Bit.TheVariants.{Zero, One, Error};
ghost use Rattle.lg_value.specs.Bit.{is_defined_bit, digit_of};
ghost use Rattle.lg_value.specs.Word.{IsDefined, number_of};
ghost use Rattle.lg_arith.specs.declared.extension.Extend.{Extend};
ghost use Rattle.lg_arith.specs.declared.shifter.ShiftKind.{ShiftKind};
ghost use Rattle.lg_arith.specs.Count.{ones_in, count_of, least_width};
ghost use Rattle.lg_arith.specs.Extend.{added_bit, extended};
ghost use Rattle.lg_arith.specs.Operands.{HasNoError};
ghost use Rattle.lg_arith.specs.Order.{greater_of, equal_of, less_of};
ghost use Rattle.lg_arith.specs.Product.{whole_product, low_product_of, high_product_of};
ghost use Rattle.lg_arith.specs.Quotient.{whole_dividend, divisor_of, quotient_of, remainder_of};
ghost use Rattle.lg_arith.specs.Shift.{moved_left, moved_right, turned, shift_of};
ghost use Rattle.lg_arith.specs.Sum.{whole_sum, taken_away, sum_of, carry_of, difference_of, borrow_of, negation_of};

/// A law: defined operands give defined outputs. An operand that may float needs only have no error.
pub fn defined_in_defined_out()
    ensures add { (a b : List Bit) (carry : Bit) → IsDefined a → IsDefined b → carry ≢ Error
        → IsDefined (sum_of a b carry) × (is_defined_bit (carry_of a b carry) ≡ true) }
    ensures sub { (a b : List Bit) (borrow : Bit) → IsDefined a → IsDefined b → borrow ≢ Error
        → IsDefined (difference_of a b borrow) × (is_defined_bit (borrow_of a b borrow) ≡ true) }
    ensures negate { (a : List Bit) → IsDefined a → IsDefined (negation_of a) }
    ensures mul { (a b c : List Bit) → IsDefined a → IsDefined b → HasNoError c
        → IsDefined (low_product_of a b c) × IsDefined (high_product_of a b c) }
    ensures div { (a b upper : List Bit) → IsDefined a → IsDefined b → HasNoError upper
        → IsDefined (quotient_of a b upper) × IsDefined (remainder_of a b upper) }
    ensures compare { (a b : List Bit) (signed : Bool) → IsDefined a → IsDefined b
        → IsDefined (greater_of a b signed ∷ equal_of a b ∷ less_of a b signed ∷ []) }
    ensures shift { (kind : ShiftKind) (a distance : List Bit) → IsDefined a → IsDefined distance
        → IsDefined (shift_of kind a distance) }
    ensures count_ones { (inputs : List (List Bit)) → All IsDefined inputs → IsDefined (count_of inputs) }
    ensures extend { (a : List Bit) (width : ℕ) (how : Extend) → IsDefined a
        → is_defined_bit (added_bit how a) ≡ true → IsDefined (extended a width how) }
{}

/// A law: the two outputs of an adder, a subtractor, a multiplier or a divider make up the whole
/// result.
pub fn outputs_make_the_whole()
    ensures sum { (a b : List Bit) (carry : Bit)
        → length b ≡ length a → IsDefined a → IsDefined b → carry ≢ Error
        → number_of (sum_of a b carry) + 2 ^ length a * digit_of (carry_of a b carry)
        ≡ whole_sum a b carry }
    ensures difference { (a b : List Bit) (borrow : Bit)
        → length b ≡ length a → IsDefined a → IsDefined b → borrow ≢ Error
        → number_of (difference_of a b borrow) + taken_away b borrow
        ≡ number_of a + 2 ^ length a * digit_of (borrow_of a b borrow) }
    ensures product { (a b c : List Bit)
        → length b ≡ length a → length c ≡ length a → IsDefined a → IsDefined b → HasNoError c
        → number_of (low_product_of a b c) + 2 ^ length a * number_of (high_product_of a b c)
        ≡ whole_product a b c }
    // Where the quotient fits the width.
    ensures quotient { (a b upper : List Bit)
        → length b ≡ length a → IsDefined a → IsDefined b → HasNoError upper
        → whole_dividend a upper < 2 ^ length a * divisor_of b
        → number_of (quotient_of a b upper) * divisor_of b + number_of (remainder_of a b upper)
        ≡ whole_dividend a upper }
    ensures remainder { (a b upper : List Bit)
        → length b ≡ length a → IsDefined a → IsDefined b → HasNoError upper
        → number_of (remainder_of a b upper) < divisor_of b }
{}

/// A law: subtraction undoes addition, and addition subtraction. A word and its negation sum to 0.
pub fn sub_undoes_add()
    ensures difference { (a b : List Bit) (carry : Bit)
        → length b ≡ length a → IsDefined a → IsDefined b → carry ≢ Error
        → difference_of (sum_of a b carry) b carry ≡ a }
    ensures sum { (a b : List Bit) (borrow : Bit)
        → length b ≡ length a → IsDefined a → IsDefined b → borrow ≢ Error
        → sum_of (difference_of a b borrow) b borrow ≡ a }
    ensures negation { (a : List Bit)
        → IsDefined a → sum_of a (negation_of a) Zero ≡ replicate (length a) Zero }
{}

/// A law: of two defined words exactly one is greater, or they are equal.
pub fn one_order_holds()
    ensures { (a b : List Bit) (signed : Bool)
        → length b ≡ length a → IsDefined a → IsDefined b
        → ones_in (greater_of a b signed ∷ equal_of a b ∷ less_of a b signed ∷ []) ≡ 1 }
{}

/// A law: what shifts and rolls do to the number of a word.
pub fn shifts_are_numbers()
    ensures left { (a : List Bit) (distance : ℕ)
        → number_of (moved_left a distance) ≡ number_of a * 2 ^ distance % 2 ^ length a }
    ensures right { (a : List Bit) (distance : ℕ)
        → number_of (moved_right Zero a distance) ≡ number_of a / 2 ^ distance }
    ensures ones_above { (a : List Bit) (distance : ℕ)
        → number_of (moved_right One a distance) + 2 ^ (length a - distance)
        ≡ number_of a / 2 ^ distance + 2 ^ length a }
    ensures roll { (a : List Bit) (place : ℕ) → place ≤ length a
        → number_of (turned a place)
        ≡ number_of a / 2 ^ place + 2 ^ (length a - place) * (number_of a % 2 ^ place) }
{}

/// A law: a number fits its least width and no lesser one.
pub fn least_width_is_least()
    ensures fits { (n : ℕ) → n < 2 ^ least_width n }
    ensures least { (n width : ℕ) → n < 2 ^ width → least_width n ≤ width }
{}
