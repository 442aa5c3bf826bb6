//! Steps of registers and counters, of `lg_memory`.

use crate::answer::Answer::{self, One, Two};
use crate::bits::{one, only_bit};
use crate::call::Call;
use crate::flip_flops::trigger_of;
use lg_memory::{Goal, State, StateForm, Trigger, out, step};
use lg_value::{Bit, Word};

/// What a call answers, if it is one of these in form.
pub fn answer(call: &Call) -> Option<Answer> {
    let (kind, form) = call.name.split_once('_')?;
    match (kind, call.words.as_slice()) {
        ("register", [before, enable, clock, clear]) => {
            let new = [only_bit(enable)?, only_bit(clock)?, only_bit(clear)?];
            Some(register_after(trigger_of(form)?, only_bit(before)?, new))
        }
        ("counter", [held, load, up, enable, clear]) if held.width() == 2 => {
            let controls = [
                only_bit(load)?,
                only_bit(up)?,
                only_bit(enable)?,
                only_bit(clear)?,
            ];
            counter_after(goal_of(form)?, held, controls)
        }
        _ => None,
    }
}

fn goal_of(name: &str) -> Option<Goal> {
    match name {
        "wrap" => Some(Goal::Wrap),
        "stay" => Some(Goal::Stay),
        "continue" => Some(Goal::Continue),
        "load" => Some(Goal::Load),
        _ => None,
    }
}

// A step of a register of 4 bits that holds 9 and is given 6; the inputs are enable, clock and clear.
fn register_after(trigger: Trigger, before: Bit, inputs: [Bit; 3]) -> Answer {
    let form = StateForm::Register { width: 4, trigger };
    let [enable, clock, clear] = inputs;
    let data = Word::from_number(4, 6);
    let old = [data, one(enable), one(before), one(Bit::Zero)];
    let new = [data, one(enable), one(clock), one(clear)];
    let mut state = State::One(Word::from_number(4, 9));
    step(&form, &mut state, &old, &new);
    One(out(&form, &state, &new, 0))
}

// A rising edge of a counter of 2 bits with the greatest number 2, which is given 1; the controls are load, up or down,
// enable and clear. It tells `q` after the edge and `carry` before it, with the controls there.
fn counter_after(goal: Goal, held: &Word, controls: [Bit; 4]) -> Option<Answer> {
    if held.width() != 2 {
        return None;
    }
    let form = StateForm::Counter {
        width: 2,
        max: 2,
        goal,
        trigger: Trigger::Rising,
    };
    let [load, up, enable, clear] = controls;
    let data = Word::from_number(2, 1);
    let (low, high) = (one(Bit::Zero), one(Bit::One));
    let old = [data, one(load), one(up), one(enable), low, low];
    let new = [data, one(load), one(up), one(enable), high, one(clear)];
    let mut state = State::One(*held);
    let before = out(&form, &state, &old, 1);
    step(&form, &mut state, &old, &new);
    Some(Two(out(&form, &state, &new, 0), before))
}
