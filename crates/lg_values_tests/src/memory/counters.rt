//! A counter of as many bits as there may be.

use super::one;
use lg_memory::{Goal, State, StateForm, Trigger, out, step};
use lg_value::Bit::{One, Zero};
use lg_value::Word;

#[test]
fn counter_of_64_bits_goes_past_its_last_number(rt: HostRuntime) {
    let form = StateForm::Counter {
        width: 64,
        max: u64::MAX,
        goal: Goal::Continue,
        trigger: Trigger::Falling,
    };
    let data = Word::fill(64, Zero);
    let mut state = State::One(Word::fill(64, One));
    let old = [data, one(Zero), one(One), one(One), one(One), one(Zero)];
    let new = [data, one(Zero), one(One), one(One), one(Zero), one(Zero)];
    step(&form, &mut state, &old, &new);
    assert_eq!(rt; out(&form, &state, &new, 0), Word::fill(64, Zero));
    let down = [data, one(Zero), one(Zero), one(One), one(Zero), one(Zero)];
    step(&form, &mut state, &old, &down);
    assert_eq!(rt; out(&form, &state, &down, 0), Word::fill(64, One));
}
