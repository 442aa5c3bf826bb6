//! Shift registers, ROMs and RAMs.

ghost use Rattle.std.specs.Prelude.{◌≡◌, ◌<◌, [], ◌∷◌, length};
ghost use Rattle.lg_memory.specs.Form.{IsForm};
ghost use Rattle.lg_memory.specs.Shape.{HasShape, FitsInputs, output_widths};

use super::one;
use lg_memory::{FlipKind, Goal, State, StateForm, Trigger, out, renew, start, step};
use lg_value::Bit::{Error, One, Unknown, Zero};
use lg_value::{Bit, Word};
use sqlite_items::Items;
use std::alloc::Global;

fn byte(n: u64) -> Word
    ensures { length result ≡ 8 }
{
    Word::from_number(8, n)
}

fn has(state: &State, index: usize, wanted: &Word) -> bool {
    match state {
        State::None => false,
        State::One(word) => index == 0 && word == wanted,
        State::Many(words) => match words.get(index) {
            Some(word) => word == wanted,
            None => false,
        },
    }
}

// Whether a part starts with so many words, all of them this one.
fn starts_with(alloc: Global, form: &StateForm, count: usize, word: &Word) -> bool
    requires { IsForm form.now }
{
    match start(alloc, form) {
        Ok(state) => (0..count).all(|index| has(&state, index, word)) && !has(&state, count, word),
        Err(_) => false,
    }
}

#[test]
fn a_flip_flop_starts_with_zero(rt: HostRuntime) {
    let kind = FlipKind::D;
    let trigger = Trigger::Rising;
    let form = StateForm::Flip { kind, trigger };
    assert!(rt; starts_with(rt.alloc(), &form, 1, &one(Zero)));
}

#[test]
fn a_register_starts_with_zeros(rt: HostRuntime) {
    let trigger = Trigger::Rising;
    let form = StateForm::Register { width: 8, trigger };
    assert!(rt; starts_with(rt.alloc(), &form, 1, &byte(0)));
}

#[test]
fn a_counter_starts_with_zeros(rt: HostRuntime) {
    let form = StateForm::Counter {
        width: 8,
        max: 9,
        goal: Goal::Wrap,
        trigger: Trigger::Rising,
    };
    assert!(rt; starts_with(rt.alloc(), &form, 1, &byte(0)));
}

#[test]
fn each_stage_of_a_shift_register_starts_with_zeros(rt: HostRuntime) {
    let form = StateForm::Shift {
        width: 1,
        length: 3,
        parallel: false,
        trigger: Trigger::Rising,
    };
    assert!(rt; starts_with(rt.alloc(), &form, 3, &one(Zero)));
}

#[test]
fn a_rom_starts_with_no_word(rt: HostRuntime) {
    let form = StateForm::Rom {
        address: 1,
        width: 8,
        words: Items::new(rt.alloc()),
    };
    assert!(rt; starts_with(rt.alloc(), &form, 0, &byte(0)));
}

#[test]
fn each_word_of_a_ram_starts_with_zeros(rt: HostRuntime) {
    let form = StateForm::Ram {
        address: 1,
        width: 8,
        trigger: Trigger::Rising,
    };
    assert!(rt; starts_with(rt.alloc(), &form, 2, &byte(0)));
}

// So many steps from some inputs to others and back.
fn repeat(form: &StateForm, state: &mut State, old: &[Word], new: &[Word], times: u32)
    requires form { IsForm form.now }
    requires shape { HasShape form.now state.old }
    requires old { FitsInputs form.now old.now }
    requires new { FitsInputs form.now new.now }
    ensures { HasShape form.now state.new }
{
    for _time in 0..times {
        step(form, state, old, new);
        step(form, state, new, old);
    }
}

#[test]
fn shift_register_of_64_stages_shows_its_last(rt: HostRuntime) {
    let form = StateForm::Shift {
        width: 1,
        length: 64,
        parallel: false,
        trigger: Trigger::Rising,
    };
    let Ok(mut state) = start(rt.alloc(), &form) else {
        panic!(rt; "memory");
    };
    let low = [one(One), one(One), one(Zero), one(Zero)];
    let high = [one(One), one(One), one(One), one(Zero)];
    repeat(&form, &mut state, &low, &high, 63);
    assert_eq!(rt; out(&form, &state, &low, 0), one(Zero));
    repeat(&form, &mut state, &low, &high, 1);
    assert_eq!(rt; out(&form, &state, &low, 0), one(One));
    let still = [one(Zero), one(Zero), one(One), one(Zero)];
    step(&form, &mut state, &low, &still);
    assert_eq!(rt; out(&form, &state, &low, 0), one(One));
    let cleared = [one(Zero), one(Zero), one(Zero), one(One)];
    step(&form, &mut state, &low, &cleared);
    assert_eq!(rt; out(&form, &state, &low, 0), one(Zero));
}

#[test]
fn parallel_stages_load_and_shift(rt: HostRuntime) {
    let form = StateForm::Shift {
        width: 8,
        length: 2,
        parallel: true,
        trigger: Trigger::Falling,
    };
    let Ok(mut state) = start(rt.alloc(), &form) else {
        panic!(rt; "memory");
    };
    let high = [
        byte(9),
        one(One),
        one(One),
        one(Zero),
        one(Zero),
        byte(3),
        byte(4),
    ];
    let load = [
        byte(9),
        one(Zero),
        one(Zero),
        one(Zero),
        one(One),
        byte(3),
        byte(4),
    ];
    let shift = [
        byte(9),
        one(Unknown),
        one(Zero),
        one(Zero),
        one(Unknown),
        byte(3),
        byte(4),
    ];
    step(&form, &mut state, &high, &load);
    assert_eq!(rt;
        (out(&form, &state, &high, 0), out(&form, &state, &high, 1)),
        (byte(3), byte(4))
    );
    step(&form, &mut state, &high, &shift);
    assert_eq!(rt;
        (out(&form, &state, &high, 0), out(&form, &state, &high, 1)),
        (byte(9), byte(3))
    );
    renew(&form, &mut state);
    assert_eq!(rt;
        (out(&form, &state, &high, 0), out(&form, &state, &high, 1)),
        (byte(0), byte(0))
    );
}

#[test]
fn single_stage_takes_the_serial_input(rt: HostRuntime) {
    let form = StateForm::Shift {
        width: 8,
        length: 1,
        parallel: true,
        trigger: Trigger::Rising,
    };
    let Ok(mut state) = start(rt.alloc(), &form) else {
        panic!(rt; "memory");
    };
    let low = [byte(9), one(One), one(Zero), one(Zero), one(Zero), byte(3)];
    let high = [byte(9), one(One), one(One), one(Zero), one(Zero), byte(3)];
    step(&form, &mut state, &low, &high);
    assert_eq!(rt; out(&form, &state, &high, 0), byte(9));
}

#[test]
fn rom_reads_its_words_and_zeros_behind_them(rt: HostRuntime) {
    let Ok(words) = vec![in rt.alloc(); 5u64, 7] else {
        panic!(rt; "memory");
    };
    let form = StateForm::Rom {
        address: 2,
        width: 8,
        words: Items::from_vec(words),
    };
    assert_eq!(rt;
        out(&form, &State::None, &[Word::from_number(2, 0)], 0),
        byte(5)
    );
    assert_eq!(rt;
        out(&form, &State::None, &[Word::from_number(2, 1)], 0),
        byte(7)
    );
    assert_eq!(rt;
        out(&form, &State::None, &[Word::from_number(2, 2)], 0),
        byte(0)
    );
    let undefined = Word::from_number(2, 0).with_bit(1, Unknown);
    assert_eq!(rt;
        out(&form, &State::None, &[undefined], 0),
        Word::fill(8, Error)
    );
}

#[test]
fn ram_stores_where_its_write_enable_is_one(rt: HostRuntime) {
    let form = StateForm::Ram {
        address: 2,
        width: 8,
        trigger: Trigger::Rising,
    };
    let Ok(mut state) = start(rt.alloc(), &form) else {
        panic!(rt; "memory");
    };
    let two = Word::from_number(2, 2);
    let undefined = two.with_bit(0, Unknown);
    let low = [two, byte(5), one(One), one(Zero)];
    let high = [two, byte(5), one(One), one(One)];
    assert_eq!(rt; out(&form, &state, &low, 0), byte(0));
    step(&form, &mut state, &low, &high);
    assert_eq!(rt; out(&form, &state, &high, 0), byte(5));
    step(
        &form,
        &mut state,
        &low,
        &[two, byte(6), one(Unknown), one(One)],
    );
    assert_eq!(rt; out(&form, &state, &high, 0), byte(5));
    step(
        &form,
        &mut state,
        &low,
        &[undefined, byte(6), one(One), one(One)],
    );
    assert_eq!(rt; out(&form, &state, &high, 0), byte(5));
    let lost = [undefined, byte(6), one(One), one(One)];
    assert_eq!(rt; out(&form, &state, &lost, 0), Word::fill(8, Error));
    step(
        &form,
        &mut state,
        &low,
        &[two, Word::fill(8, Unknown), one(One), one(One)],
    );
    assert_eq!(rt; out(&form, &state, &high, 0), Word::fill(8, Unknown));
}

#[test]
fn ten_thousand_steps_of_a_large_ram(rt: HostRuntime) {
    let form = StateForm::Ram {
        address: 20,
        width: 8,
        trigger: Trigger::Rising,
    };
    let Ok(mut state) = start(rt.alloc(), &form) else {
        panic!(rt; "memory");
    };
    let last = Word::fill(20, One);
    let low = [last, byte(7), one(One), one(Zero)];
    let high = [last, byte(7), one(One), one(One)];
    repeat(&form, &mut state, &low, &high, 5000);
    assert_eq!(rt; out(&form, &state, &low, 0), byte(7));
}
