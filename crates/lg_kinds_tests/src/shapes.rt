//! What a part answers, and the words that fill a ROM.

use lg_gates::{GateKind, OutForm};
use lg_memory::{State, StateForm, Trigger};
use lg_parts::{Disabled, Gate, Plexer, SelectCorner, Shape, contents_of, is_contents, literal_of};
use lg_value::{Bit, Word};
use sqlite_items::Items;

#[test]
fn register_holds_what_its_edge_stored(rt: HostRuntime) {
    let register = Shape::Memory(StateForm::Register {
        width: 4,
        trigger: Trigger::Rising,
    });
    let zero = Word::fill(1, Bit::Zero);
    let one = Word::fill(1, Bit::One);
    let nine = Word::from_number(4, 9);
    let low = [nine, one, zero, zero];
    let high = [nine, one, one, zero];
    let Ok(mut state) = register.start(rt.alloc()) else {
        assert!(rt; false);
        return;
    };
    register.step(&mut state, &low, &high);
    assert!(rt; register.out(false, &[true; 4], &state, &high, 0) == nine);
    register.renew(&mut state);
    assert!(rt; register.out(false, &[true; 4], &state, &high, 0) == Word::from_number(4, 0));
}

#[test]
fn negated_input_of_a_gate_is_inverted(rt: HostRuntime) {
    let mut negated = Items::new(rt.alloc());
    let (Ok(()), Ok(())) = (negated.push(false), negated.push(true)) else {
        assert!(rt; false);
        return;
    };
    let gate = Shape::Gate(Gate::Logic {
        kind: GateKind::And,
        width: 1,
        size: 50,
        negated,
        out: OutForm::ZeroOne,
    });
    let inputs = [Word::fill(1, Bit::One), Word::fill(1, Bit::Zero)];
    let both = gate.out(false, &[true, true], &State::None, &inputs, 0);
    assert!(rt; both == Word::fill(1, Bit::One));
    let alone = gate.out(true, &[true, false], &State::None, &inputs, 0);
    assert!(rt; alone == Word::fill(1, Bit::Error));
}

#[test]
fn multiplexer_floats_where_it_is_not_enabled(rt: HostRuntime) {
    let plexer = Shape::Plexer(Plexer::Multiplexer {
        width: 2,
        select: 1,
        enable: true,
        disabled: Disabled::Float,
        corner: SelectCorner::BottomLeft,
    });
    let (zero, one) = (Word::fill(1, Bit::Zero), Word::fill(1, Bit::One));
    let (two, three) = (Word::from_number(2, 2), Word::from_number(2, 3));
    let shown = plexer.out(false, &[true; 4], &State::None, &[two, three, one, one], 0);
    assert!(rt; shown == three);
    let off = plexer.out(false, &[true; 4], &State::None, &[two, three, one, zero], 0);
    assert!(rt; off == Word::fill(2, Bit::Unknown));
}

#[test]
fn rom_is_filled_with_its_contents(rt: HostRuntime) {
    let text = b"addr/data: 2 8\n1 2*ff # and 0";
    assert!(rt; is_contents(text, 2, 8));
    let Ok(words) = contents_of(rt.alloc(), text, 2, 8) else {
        assert!(rt; false);
        return;
    };
    assert!(rt; words.as_slice() == [1, 255, 255].as_slice());
}

#[test]
fn literal_is_decimal_or_hexadecimal(rt: HostRuntime) {
    assert!(rt; literal_of("0x1F") == Some(31));
    assert!(rt; literal_of("31") == Some(31));
    assert!(rt; literal_of("18446744073709551616") == None);
    assert!(rt; literal_of("0x") == None);
}
