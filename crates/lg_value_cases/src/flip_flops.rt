//! Steps of flip-flops, of `lg_memory`.

ghost use Rattle.std.specs.Prelude.{◌≡◌, [], ◌∷◌, IfSome};
ghost use Rattle.lg_memory.specs.declared.state.State.TheVariants.{One as Held};
ghost use Rattle.lg_memory.specs.Form.{IsForm, IsEdge};
ghost use Rattle.lg_memory.specs.Shape.{HasShape, FitsInputs, output_widths};

use crate::answer::Answer::{self, Two};
use crate::bits::{one, only_bit};
use crate::call::Call;
use lg_memory::{FlipKind, State, StateForm, Trigger, out, step};
use lg_value::{Bit, Word};

/// What a call answers, if it is one of these in form.
pub fn answer(call: &Call) -> Option<Answer> {
    let (kind, trigger) = call.name.split_once('_')?;
    let words = call.words.as_slice();
    if kind == "d" {
        return after_d(trigger_of(trigger)?, words);
    }
    if kind == "sr" {
        return after_sr(trigger_of(trigger)?, words);
    }
    let edge = edge_of(trigger)?;
    match (kind, words) {
        ("t", [q, data]) => Some(after_t(edge, only_bit(q)?, only_bit(data)?)),
        ("jk", [q, j, k]) => Some(after_jk(edge, only_bit(q)?, only_bit(j)?, only_bit(k)?)),
        _ => None,
    }
}

/// The trigger of a name.
pub fn trigger_of(name: &str) -> Option<Trigger> {
    match name {
        "rising" => Some(Trigger::Rising),
        "falling" => Some(Trigger::Falling),
        "high" => Some(Trigger::High),
        "low" => Some(Trigger::Low),
        _ => None,
    }
}

fn edge_of(name: &str) -> Option<Trigger>
    ensures { IfSome result IsEdge }
{
    match name {
        "rising" => Some(Trigger::Rising),
        "falling" => Some(Trigger::Falling),
        _ => None,
    }
}

// The two outputs after a step.
fn outputs_after(form: &StateForm, q: Bit, old: &[Word], new: &[Word]) -> Answer
    requires form { IsForm form.now }
    requires shape { HasShape form.now (Held (q ∷ [])) }
    requires old { FitsInputs form.now old.now }
    requires new { FitsInputs form.now new.now }
    requires two { output_widths form.now ≡ 1 ∷ 1 ∷ [] }
{
    let mut state = State::One(one(q));
    step(form, &mut state, old, new);
    Two(out(form, &state, new, 0), out(form, &state, new, 1))
}

// A step of a D flip-flop: what it holds, its clock before, and then its data, clock, preset and clear.
fn after_d(trigger: Trigger, words: &[Word]) -> Option<Answer> {
    let [q, before, data, clock, preset, clear] = words else {
        return None;
    };
    let form = StateForm::Flip {
        kind: FlipKind::D,
        trigger,
    };
    let data = only_bit(data)?;
    let old = [
        one(data),
        one(only_bit(before)?),
        one(Bit::Zero),
        one(Bit::Zero),
    ];
    let new = [
        one(data),
        one(only_bit(clock)?),
        one(only_bit(preset)?),
        one(only_bit(clear)?),
    ];
    Some(outputs_after(&form, only_bit(q)?, &old, &new))
}

// The clock before and after an edge.
fn around(edge: Trigger) -> (Bit, Bit) {
    match edge {
        Trigger::Falling => (Bit::One, Bit::Zero),
        _ => (Bit::Zero, Bit::One),
    }
}

// What a T flip-flop holds once it is triggered.
fn after_t(edge: Trigger, q: Bit, data: Bit) -> Answer
    requires { IsEdge edge }
{
    let form = StateForm::Flip {
        kind: FlipKind::T,
        trigger: edge,
    };
    let (before, clock) = around(edge);
    let old = [one(data), one(before), one(Bit::Zero), one(Bit::Zero)];
    let new = [one(data), one(clock), one(Bit::Zero), one(Bit::Zero)];
    outputs_after(&form, q, &old, &new)
}

// What a J-K flip-flop holds once it is triggered.
fn after_jk(edge: Trigger, q: Bit, j: Bit, k: Bit) -> Answer
    requires { IsEdge edge }
{
    let form = StateForm::Flip {
        kind: FlipKind::Jk,
        trigger: edge,
    };
    let (before, clock) = around(edge);
    let old = [one(j), one(k), one(before), one(Bit::Zero), one(Bit::Zero)];
    let new = [one(j), one(k), one(clock), one(Bit::Zero), one(Bit::Zero)];
    outputs_after(&form, q, &old, &new)
}

// A step of an S-R flip-flop without preset: what it holds, its inputs, its clock before and after, and its clear.
fn after_sr(trigger: Trigger, words: &[Word]) -> Option<Answer> {
    let [q, s, r, before, clock, clear] = words else {
        return None;
    };
    let form = StateForm::Flip {
        kind: FlipKind::Sr,
        trigger,
    };
    let s = only_bit(s)?;
    let r = only_bit(r)?;
    let before = only_bit(before)?;
    let old = [one(s), one(r), one(before), one(Bit::Zero), one(Bit::Zero)];
    let clock = only_bit(clock)?;
    let new = [
        one(s),
        one(r),
        one(clock),
        one(Bit::Zero),
        one(only_bit(clear)?),
    ];
    Some(outputs_after(&form, only_bit(q)?, &old, &new))
}
