//! The laws of gates and plexers.

ghost use Rattle.std.specs.Prelude.{◌≡◌, ℕ, ◌<◌, ◌^◌, true, false, Bool, List, Option, All, length};
ghost use Rattle.std.specs.List.Sorted.{IsPermutation};
ghost use Rattle.lg_value.specs.declared.bit.Bit.{Bit as Value};
ghost use Rattle.lg_value.specs.Bit.{is_defined_bit};
ghost use Rattle.lg_value.specs.Word.{IsDefined, number_of, word_of_number};
ghost use Rattle.lg_gates.specs.declared.gates.GateKind.{GateKind as Kind};
ghost use Rattle.lg_gates.specs.declared.outputs.OutForm.{OutForm as Form};
ghost use Rattle.lg_gates.specs.Gate.{some_one, attached, lacks_inputs, gate_word, HaveWidth, CarryDefined};
ghost use Rattle.lg_gates.specs.Shape.{not_word, buffer_word, controlled_word, shape_word};
ghost use Rattle.lg_gates.specs.Plexer.{first_width, HaveOneWidth, pick_word, spread_word, enabled_word};
ghost use Rattle.lg_gates.specs.Priority.{greatest_one, IsGreatestOne, priority_of};
ghost use Rattle.lg_gates.specs.Selector.{group_word};

use crate::{GateKind, OutForm};

/// A law: NAND, NOR, both forms of XNOR and Even Parity are the inversions of AND, OR, XOR and Odd
/// Parity, and Odd Parity is XOR of an odd number.
pub fn inverted_kinds_invert()
    ensures nand { (width : ℕ) (inputs : List (Option (List Value))) (strict : Bool)
        → gate_word GateKind.Nand width inputs strict
        ≡ not_word (gate_word GateKind.And width inputs strict) }
    ensures nor { (width : ℕ) (inputs : List (Option (List Value))) (strict : Bool)
        → gate_word GateKind.Nor width inputs strict
        ≡ not_word (gate_word GateKind.Or width inputs strict) }
    ensures xnor_one { (width : ℕ) (inputs : List (Option (List Value))) (strict : Bool)
        → gate_word GateKind.XnorOne width inputs strict
        ≡ not_word (gate_word GateKind.XorOne width inputs strict) }
    ensures xnor_odd { (width : ℕ) (inputs : List (Option (List Value))) (strict : Bool)
        → gate_word GateKind.XnorOdd width inputs strict
        ≡ not_word (gate_word GateKind.XorOdd width inputs strict) }
    ensures even { (width : ℕ) (inputs : List (Option (List Value))) (strict : Bool)
        → gate_word GateKind.EvenParity width inputs strict
        ≡ not_word (gate_word GateKind.OddParity width inputs strict) }
    ensures odd { (width : ℕ) (inputs : List (Option (List Value))) (strict : Bool)
        → gate_word GateKind.OddParity width inputs strict
        ≡ gate_word GateKind.XorOdd width inputs strict }
{}

/// A law: the order of a gate's inputs does not matter.
pub fn order_of_inputs_is_free()
    ensures { (kind : Kind) (width : ℕ) (inputs other : List (Option (List Value))) (strict : Bool)
        → IsPermutation inputs other
        → gate_word kind width other strict ≡ gate_word kind width inputs strict }
{}

/// A law: with fewer than three attached inputs exactly one of them is 1 where an odd number is.
pub fn one_and_odd_agree()
    ensures xor { (width : ℕ) (inputs : List (Option (List Value))) (strict : Bool)
        → length (attached inputs) < 3
        → gate_word GateKind.XorOne width inputs strict
        ≡ gate_word GateKind.XorOdd width inputs strict }
    ensures xnor { (width : ℕ) (inputs : List (Option (List Value))) (strict : Bool)
        → length (attached inputs) < 3
        → gate_word GateKind.XnorOne width inputs strict
        ≡ gate_word GateKind.XnorOdd width inputs strict }
{}

/// A law: where some input is 1, the address of a priority encoder is the one greatest place that
/// holds a 1.
pub fn greatest_one_is_greatest()
    ensures greatest { (inputs : List Value)
        → some_one inputs ≡ true → IsGreatestOne inputs (greatest_one inputs) }
    ensures one { (inputs : List Value) (a b : ℕ)
        → IsGreatestOne inputs a → IsGreatestOne inputs b → a ≡ b }
    ensures address { (inputs : List Value) (width : ℕ)
        → some_one inputs ≡ true → length inputs ≡ 2 ^ width
        → number_of (word_of_number width (greatest_one inputs)) ≡ greatest_one inputs }
{}

/// A law: what each gate and plexer answers has the width that its inputs give, defined or not.
pub fn outputs_have_their_width()
    ensures gate { (kind : Kind) (width : ℕ) (inputs : List (Option (List Value))) (strict : Bool)
        → length (gate_word kind width inputs strict) ≡ width }
    ensures not { (word : List Value) → length (not_word word) ≡ length word }
    ensures buffer { (word : List Value) → length (buffer_word word) ≡ length word }
    ensures controlled { (invert : Bool) (input : List Value) (control : Value)
        → length (controlled_word invert input control) ≡ length input }
    ensures shape { (form : Form) (word : List Value)
        → length (shape_word form word) ≡ length word }
    ensures pick { (select : List Value) (items : List (List Value))
        → length items ≡ 2 ^ length select → HaveOneWidth items
        → length (pick_word select items) ≡ first_width items }
    ensures spread { (select input : List Value) (place : ℕ) (off : Value)
        → length (spread_word select input place off) ≡ length input }
    ensures enabled { (enable : Value) (value : List Value) (off : Value)
        → length (enabled_word enable value off) ≡ length value }
    ensures address { (inputs : List Value) (enable : Value) (width : ℕ) (off : Value)
        → length (priority_of inputs enable width off).0 ≡ width }
    ensures group { (input select : List Value) (group : ℕ)
        → length (group_word input select group) ≡ group }
{}

/// A law: defined inputs give defined outputs, but for a gate that lacks inputs, for an output form in
/// which a value floats, for a controlled buffer or inverter, which floats where its control is 0, and
/// where `off` is undefined.
pub fn defined_gives_defined()
    ensures gate { (kind : Kind) (width : ℕ) (inputs : List (Option (List Value))) (strict : Bool)
        → lacks_inputs strict inputs ≡ false → HaveWidth width inputs → CarryDefined inputs
        → IsDefined (gate_word kind width inputs strict) }
    ensures not { (word : List Value) → IsDefined word → IsDefined (not_word word) }
    ensures buffer { (word : List Value) → IsDefined word → buffer_word word ≡ word }
    ensures shape { (word : List Value) → shape_word OutForm.ZeroOne word ≡ word }
    ensures pick { (select : List Value) (items : List (List Value))
        → length items ≡ 2 ^ length select → IsDefined select → All IsDefined items
        → IsDefined (pick_word select items) }
    ensures spread { (select input : List Value) (place : ℕ) (off : Value)
        → IsDefined select → IsDefined input → is_defined_bit off ≡ true
        → IsDefined (spread_word select input place off) }
    ensures enabled { (enable : Value) (value : List Value) (off : Value)
        → is_defined_bit enable ≡ true → IsDefined value → is_defined_bit off ≡ true
        → IsDefined (enabled_word enable value off) }
    ensures address { (inputs : List Value) (enable : Value) (width : ℕ) (off : Value)
        → IsDefined inputs → is_defined_bit enable ≡ true → is_defined_bit off ≡ true
        → IsDefined (priority_of inputs enable width off).0 }
    ensures group_bit { (inputs : List Value) (enable : Value) (width : ℕ) (off : Value)
        → IsDefined inputs → is_defined_bit enable ≡ true
        → is_defined_bit (priority_of inputs enable width off).1 ≡ true }
    ensures enable_output { (inputs : List Value) (enable : Value) (width : ℕ) (off : Value)
        → IsDefined inputs → is_defined_bit enable ≡ true
        → is_defined_bit (priority_of inputs enable width off).2 ≡ true }
    ensures group { (input select : List Value) (group : ℕ)
        → IsDefined select → IsDefined input → IsDefined (group_word input select group) }
{}
