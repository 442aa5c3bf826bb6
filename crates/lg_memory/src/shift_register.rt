//! What a triggered shift register holds.

ghost use Rattle.std.specs.Prelude.{◌≡◌, ◌+◌, ◌≤◌, ◌∷◌, length};
ghost use Rattle.std.specs.Bool.{OnTrue};
ghost use Rattle.lg_memory.specs.Inputs.{word_at};
ghost use Rattle.lg_memory.specs.ShiftRegister.{shifted, load_bit, shift_words};

use crate::inputs::bit_at;
use lg_value::{Bit, Word};
use sqlite_items::Items;

// Where the data of the first stage stand among the inputs.
const FIRST_DATA: usize = 5;

// The stages load, hold or shift in place.
pub fn shift_words(parallel: bool, stages: &mut Items<Word>, inputs: &[Word])
    requires si { 1 ≤ length inputs.now }
    requires sh { 1 ≤ length (word_at inputs.now 1) }
    requires ld { OnTrue parallel (1 ≤ length (word_at inputs.now 4)) }
    requires d { OnTrue parallel (length inputs.now ≡ 5 + length stages.old) }
    ensures { stages.new ≡ shift_words parallel stages.old inputs.now }
{
    if parallel && bit_at(inputs, 4) == Bit::One {
        load(stages, &inputs[FIRST_DATA..]);
    } else if bit_at(inputs, 1) != Bit::Zero {
        shift(stages, inputs[0]);
    }
}

fn load(stages: &mut Items<Word>, loaded: &[Word])
    requires { length loaded.now ≡ length stages.old }
    ensures { stages.new ≡ loaded.now }
{
    for stage in 0..loaded.len() {
        stages.set(stage, loaded[stage]);
    }
}

fn shift(stages: &mut Items<Word>, si: Word)
    ensures { stages.new ≡ shifted si stages.old }
{
    let mut carried = si;
    for stage in 0..stages.len() {
        let held = stages.as_slice()[stage];
        stages.set(stage, carried);
        carried = held;
    }
}
