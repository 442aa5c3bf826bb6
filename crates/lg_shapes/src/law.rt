//! The laws of shapes.

ghost use Rattle.std.specs.Prelude.{◌≡◌, ℕ, true, false, Bool, List, [], ◌∷◌, length, map, slice_get, All, None, Some};
ghost use Rattle.lg_value.specs.declared.bit.Bit.TheVariants.{Zero as Low, One as High};
ghost use Rattle.lg_value.specs.Word.{IsDefined};
ghost use Rattle.lg_memory.specs.declared.form.Trigger.TheVariants.{Rising, Falling};
ghost use Rattle.lg_memory.specs.declared.state.State.{State as Held};
ghost use Rattle.lg_memory.specs.declared.state.State.TheVariants.{None as NoWord};
ghost use Rattle.lg_memory.specs.Inputs.{Word, bit_at, word_at};
ghost use Rattle.lg_memory.specs.Controls.{is_one};
ghost use Rattle.lg_shapes.specs.declared.shape.Shape.{Shape as Form};
ghost use Rattle.lg_shapes.specs.Shapes.{IsShape, HasState, AreHeld, HasInputs, ReadsDefined, input_widths, output_widths, output_words, stepped, start_words};
ghost use Rattle.lg_shapes.specs.Reads.{reads, is_exportable, clock_of, clear_of, preset_of};

/// A law: a step that ends in the inputs at which it begins changes nothing, once a step has come to them.
pub fn a_repeated_step_changes_nothing()
    ensures { (shape : Form) (words old new : List Word) → IsShape shape
        → stepped shape (stepped shape words old new) new new ≡ stepped shape words old new }
{}

/// A law: an output is the same for two lists of inputs with the same words where it reads them.
pub fn outputs_read_few_inputs()
    ensures { (shape : Form) (strict : Bool) (attached : List Bool) (words : List Word) (output : ℕ) (one other : List Word)
        → map length one ≡ input_widths shape → map length other ≡ input_widths shape
        → ((input : ℕ) → reads shape output input ≡ true → word_at one input ≡ word_at other input)
        → slice_get (output_words shape strict attached words one) output ≡ slice_get (output_words shape strict attached words other) output }
{}

/// A law: where nothing floats, defined words and inputs give defined outputs, and defined words after a step. A gate
/// needs an attached input for it, and all of them where it is strict.
pub fn defined_gives_defined()
    ensures outs { (shape : Form) (strict : Bool) (attached : List Bool) (words inputs : List Word)
        → IsShape shape → is_exportable shape ≡ true
        → length attached ≡ length (input_widths shape) → map length inputs ≡ input_widths shape
        → HasInputs shape strict attached → ReadsDefined shape attached inputs → All IsDefined words
        → All IsDefined (output_words shape strict attached words inputs) }
    ensures steps { (shape : Form) (words old new : List Word)
        → AreHeld shape words → map length new ≡ input_widths shape → All IsDefined words → All IsDefined new
        → All IsDefined (stepped shape words old new) }
    ensures start { (shape : Form) → All IsDefined (start_words shape) }
{}

/// A law: where neither clear nor preset is 1, a part keeps its words in a step without its edge. A part without a clock
/// keeps them in each, and holds nothing.
pub fn a_step_without_its_edge_changes_nothing()
    ensures rising { (shape : Form) (words old new : List Word) (clock : ℕ)
        → clock_of shape ≡ Some (Rising, clock) → ¬ ((bit_at old clock ≡ Low) × (bit_at new clock ≡ High))
        → is_one (clear_of shape) new ≡ false → is_one (preset_of shape) new ≡ false
        → stepped shape words old new ≡ words }
    ensures falling { (shape : Form) (words old new : List Word) (clock : ℕ)
        → clock_of shape ≡ Some (Falling, clock) → ¬ ((bit_at old clock ≡ High) × (bit_at new clock ≡ Low))
        → is_one (clear_of shape) new ≡ false → is_one (preset_of shape) new ≡ false
        → stepped shape words old new ≡ words }
    ensures unclocked { (shape : Form) (words old new : List Word)
        → clock_of shape ≡ None → stepped shape words old new ≡ words }
    ensures stateless { (shape : Form) (state : Held)
        → clock_of shape ≡ None → HasState shape state → state ≡ NoWord }
{}

/// A law: once clear is 1 every word is 0, and once preset is 1 and clear is not, the word is 1.
pub fn clear_and_preset_act_at_every_step()
    ensures clear { (shape : Form) (words old new : List Word)
        → is_one (clear_of shape) new ≡ true
        → All (λ word. All (λ bit. bit ≡ Low) word) (stepped shape words old new) }
    ensures preset { (shape : Form) (words old new : List Word)
        → is_one (clear_of shape) new ≡ false → is_one (preset_of shape) new ≡ true
        → stepped shape words old new ≡ (High ∷ []) ∷ [] }
{}

/// A law: a step keeps the number of words and their widths, and outputs have the widths of their ports.
pub fn widths_stay()
    ensures start { (shape : Form) → AreHeld shape (start_words shape) }
    ensures words { (shape : Form) (words old new : List Word)
        → AreHeld shape words → map length new ≡ input_widths shape → AreHeld shape (stepped shape words old new) }
    ensures outs { (shape : Form) (strict : Bool) (attached : List Bool) (words inputs : List Word)
        → IsShape shape → AreHeld shape words → length attached ≡ length (input_widths shape) → map length inputs ≡ input_widths shape
        → map length (output_words shape strict attached words inputs) ≡ output_widths shape }
{}
