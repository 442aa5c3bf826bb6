//! What a part holds, and its start.

ghost use Rattle.std.specs.Prelude.{◌≡◌, length, replicate, IfOk};
ghost use Rattle.lg_value.specs.Word.{IsWidth};
ghost use Rattle.lg_memory.specs.Form.{IsForm};
ghost use Rattle.lg_memory.specs.Shape.{word_width, words_of, HasShape};
ghost use Rattle.lg_memory.specs.Step.{start_words};

use crate::fault::Memory;
use crate::form::StateForm;
use lg_value::{Bit, Word};
use sqlite_items::Items;
use std::alloc::{AllocError, Global};

/// What a part holds.
#[derive(Debug, Drop)]
pub enum State {
    /// Nothing: a ROM.
    None,
    /// A flip-flop's bit, a register's or a counter's word.
    One(Word),
    /// The stages of a shift register, stage 0 first, or the words of a RAM by their addresses.
    Many(Items<Word>),
}

/// The state at the start: all words are 0. The form's numbers and its trigger are in their ranges.
pub fn start(alloc: Global, form: &StateForm) -> Result<State, Memory>
    requires { IsForm form.now }
    ensures words { IfOk result (λ state. words_of state ≡ start_words form.now) }
    ensures shape { IfOk result (λ state. HasShape form.now state) }
{
    let zero = Word::fill(word_width(form), Bit::Zero);
    match form {
        StateForm::Rom { .. } => Ok(State::None),
        StateForm::Flip { .. } | StateForm::Register { .. } | StateForm::Counter { .. } => {
            Ok(State::One(zero))
        }
        StateForm::Shift { length, .. } => {
            Ok(State::Many(copies(alloc, zero, *length as usize)?))
        }
        StateForm::Ram { address, .. } => Ok(State::Many(copies(alloc, zero, 1 << *address)?)),
    }
}

/// Makes a state of the form's shape the state at the start, in place.
pub fn renew(form: &StateForm, state: &mut State)
    requires form { IsForm form.now }
    requires shape { HasShape form.now state.old }
    ensures words { words_of state.new ≡ start_words form.now }
    ensures shape { HasShape form.now state.new }
{
    let zero = Word::fill(word_width(form), Bit::Zero);
    match state {
        State::None => {}
        State::One(word) => *word = zero,
        State::Many(words) => fill(words, zero),
    }
}

// How many bits the words of a form have.
pub fn word_width(form: &StateForm) -> u32
    requires { IsForm form.now }
    ensures width { result ≡ word_width form.now }
    ensures in_range { IsWidth result }
{
    match form {
        StateForm::Flip { .. } => 1,
        StateForm::Register { width, .. }
        | StateForm::Counter { width, .. }
        | StateForm::Shift { width, .. }
        | StateForm::Rom { width, .. }
        | StateForm::Ram { width, .. } => *width,
    }
}

fn copies(alloc: Global, word: Word, count: usize) -> Result<Items<Word>, AllocError>
    ensures { IfOk result (λ words. words ≡ replicate count word) }
{
    Ok(Items::from_vec(vec![in alloc; word; count]?))
}

fn fill(words: &mut Items<Word>, word: Word)
    ensures { words.new ≡ replicate (length words.old) word }
{
    for place in 0..words.len() {
        words.set(place, word);
    }
}
