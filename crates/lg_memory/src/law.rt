//! Laws of steps and outputs.

ghost use Rattle.std.specs.Prelude.{◌≡◌, ℕ, true, false, List, [], ◌∷◌, length, map, slice_get, All, None, Some};
ghost use Rattle.lg_value.specs.declared.bit.Bit.TheVariants.{Zero as Low, One as High};
ghost use Rattle.lg_value.specs.Word.{IsDefined};
ghost use Rattle.lg_memory.specs.declared.form.Trigger.TheVariants.{Rising, Falling};
ghost use Rattle.lg_memory.specs.declared.form.StateForm.{StateForm as Form};
ghost use Rattle.lg_memory.specs.declared.state.State.{State as Held};
ghost use Rattle.lg_memory.specs.Form.{IsForm};
ghost use Rattle.lg_memory.specs.Inputs.{Word, bit_at, word_at};
ghost use Rattle.lg_memory.specs.Controls.{clock_of, clear_of, preset_of, is_one};
ghost use Rattle.lg_memory.specs.Reads.{reads};
ghost use Rattle.lg_memory.specs.Shape.{FitsInputs, AreHeld, HasShape, words_of, output_widths};
ghost use Rattle.lg_memory.specs.Step.{stepped, outputs};

/// A law: a step that ends in the inputs at which it begins changes nothing, once a step has come to them.
pub fn a_repeated_step_changes_nothing()
    ensures { (form : Form) (words : List Word) (old new : List Word) → IsForm form
        → stepped form (stepped form words old new) new new ≡ stepped form words old new }
{}

/// A law: where neither clear nor preset is 1, a part keeps its words in a step without its edge, and a part without a
/// clock keeps them in each.
pub fn a_step_without_its_edge_changes_nothing()
    ensures rising { (form : Form) (words : List Word) (old new : List Word) (clock : ℕ)
        → clock_of form ≡ Some (Rising, clock) → ¬ ((bit_at old clock ≡ Low) × (bit_at new clock ≡ High))
        → is_one (clear_of form) new ≡ false → is_one (preset_of form) new ≡ false
        → stepped form words old new ≡ words }
    ensures falling { (form : Form) (words : List Word) (old new : List Word) (clock : ℕ)
        → clock_of form ≡ Some (Falling, clock) → ¬ ((bit_at old clock ≡ High) × (bit_at new clock ≡ Low))
        → is_one (clear_of form) new ≡ false → is_one (preset_of form) new ≡ false
        → stepped form words old new ≡ words }
    ensures unclocked { (form : Form) (words : List Word) (old new : List Word)
        → clock_of form ≡ None → stepped form words old new ≡ words }
{}

/// A law: defined inputs and defined words give defined words after the step, and defined outputs.
pub fn defined_inputs_give_defined_words()
    ensures steps { (form : Form) (words : List Word) (old new : List Word)
        → AreHeld form words → FitsInputs form new → All IsDefined words → All IsDefined new
        → All IsDefined (stepped form words old new) }
    ensures outs { (form : Form) (words : List Word) (inputs : List Word)
        → All IsDefined words → All IsDefined inputs → All IsDefined (outputs form words inputs) }
{}

/// A law: once clear is 1 every word is 0, and once preset is 1 and clear is not, the word is 1.
pub fn clear_and_preset_act_at_every_step()
    ensures clear { (form : Form) (words : List Word) (old new : List Word)
        → is_one (clear_of form) new ≡ true
        → All (λ word. All (λ bit. bit ≡ Low) word) (stepped form words old new) }
    ensures preset { (form : Form) (words : List Word) (old new : List Word)
        → is_one (clear_of form) new ≡ false → is_one (preset_of form) new ≡ true
        → stepped form words old new ≡ (High ∷ []) ∷ [] }
{}

/// A law: a step keeps the number of words and their widths, and outputs have the widths of their ports.
pub fn widths_stay()
    ensures words { (form : Form) (words : List Word) (old new : List Word)
        → AreHeld form words → FitsInputs form new → AreHeld form (stepped form words old new) }
    ensures outs { (form : Form) (words : List Word) (inputs : List Word)
        → IsForm form → AreHeld form words → FitsInputs form inputs
        → map length (outputs form words inputs) ≡ output_widths form }
{}

/// A law: an output is the same for two lists of inputs with the same words where it reads them.
pub fn outputs_read_few_inputs()
    ensures { (form : Form) (words : List Word) (output : ℕ) (one other : List Word)
        → ((input : ℕ) → reads form output input ≡ true → word_at one input ≡ word_at other input)
        → slice_get (outputs form words one) output ≡ slice_get (outputs form words other) output }
{}

/// A law: a state of a form's shape is told by its words.
pub fn words_tell_the_state()
    ensures { (form : Form) (a b : Held) → HasShape form a → HasShape form b → words_of a ≡ words_of b → a ≡ b }
{}
