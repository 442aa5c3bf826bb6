//! The laws of time: settling, session tables, configurations, evaluations.

ghost use Rattle.std.specs.Prelude.{◌≡◌, ℕ, ◌+◌, ◌<◌, ◌≤◌, ◌++◌, true, false, List, [], ◌∷◌, length, ◌⊎◌, All};
ghost use Rattle.lg_value.specs.declared.bit.Bit.{Bit};
ghost use Rattle.lg_timing.specs.Circuit.{Word, Port, Circuit, Stimulus};
ghost use Rattle.lg_timing.specs.Instant.{Numbered, numbered_parts, in_force, instant_at, value_at, outputs_at};
ghost use Rattle.lg_timing.specs.Session.{Table, IsTable};
ghost use Rattle.lg_timing.specs.Settling.{is_busy, SettlesAt, SettlesWithin, OscillatesPast, IsSteady, StayFrom, StandAfter};
ghost use Rattle.lg_timing.specs.Evaluation.{is_evaluated, evaluations_at, evaluations_between, StaysAs};
ghost use Rattle.lg_timing.specs.Samples.{one_word};
ghost use Rattle.lg_timing.specs.NotGate.{not_circuit, row_0, both_rows, Shows, not_table};
ghost use Rattle.lg_timing.specs.Configuration.{Configuration, configuration_at, first, next, going_on, nets_of, shifted, SamePut, stimulus_of, IsStill, IsAtRest, HaveDelays};

/// A law: while its stimulus stays, a circuit of steady parts either settles within a limit of busy
/// instants or oscillates past it, and never both.
pub fn settling_is_decided()
    // A stretch as long as the greatest delay without a busy instant is followed by none.
    ensures stretch { (greatest : ℕ) (c : Circuit) (stimuli : List Stimulus) (start t : ℕ)
        → All (IsSteady greatest) c.parts → StayFrom stimuli start → start ≤ t
        → ((u : ℕ) → t < u → u ≤ t + greatest → is_busy c stimuli u ≡ false)
        → (u : ℕ) → t < u → is_busy c stimuli u ≡ false }
    ensures one { (greatest : ℕ) (c : Circuit) (stimuli : List Stimulus) (start limit : ℕ)
        → All (IsSteady greatest) c.parts → StayFrom stimuli start
        → ((settled : ℕ) × SettlesWithin c stimuli start limit settled)
        ⊎ ((after : ℕ) × OscillatesPast c stimuli start limit after) }
    ensures not_both { (c : Circuit) (stimuli : List Stimulus) (start limit settled after : ℕ)
        → SettlesWithin c stimuli start limit settled → OscillatesPast c stimuli start limit after → ⊥ }
    ensures one_instant { (c : Circuit) (stimuli : List Stimulus) (start a b : ℕ)
        → SettlesAt c stimuli start a → SettlesAt c stimuli start b → a ≡ b }
    ensures one_number { (c : Circuit) (stimuli : List Stimulus) (start limit a b : ℕ)
        → OscillatesPast c stimuli start limit a → OscillatesPast c stimuli start limit b → a ≡ b }
    // What has settled is at rest, also where later stimuli follow.
    ensures rest { (c : Circuit) (stimuli later : List Stimulus) (start settled : ℕ)
        → HaveDelays c → StayFrom stimuli start → SettlesAt c stimuli start settled
        → StandAfter settled later → IsAtRest c (configuration_at c (stimuli ++ later) settled) }
{}

/// A law: rows have at most one session table at each limit, and exactly one where the parts are
/// steady.
pub fn rows_have_one_table()
    ensures at_most { (c : Circuit) (limit : ℕ) (rows : List (List Word)) (a b : Table)
        → IsTable c limit rows a → IsTable c limit rows b → a ≡ b }
    ensures one { (greatest : ℕ) (c : Circuit) (limit : ℕ) (rows : List (List Word))
        → All (IsSteady greatest) c.parts
        → (table : Table) × IsTable c limit rows table
        × ((other : Table) → IsTable c limit rows other → other ≡ table) }
{}

/// A law: stimuli that stand after an instant change nothing up to it.
pub fn later_stimuli_change_nothing()
    ensures instant { (c : Circuit) (stimuli later : List Stimulus) (t : ℕ) → StandAfter t later
        → instant_at c (stimuli ++ later) t ≡ instant_at c stimuli t }
    ensures outputs { (c : Circuit) (stimuli later : List Stimulus) (t : ℕ) (p : Numbered) → StandAfter t later
        → outputs_at c (stimuli ++ later) t p ≡ outputs_at c stimuli t p }
    ensures busy { (c : Circuit) (stimuli later : List Stimulus) (t : ℕ) → StandAfter t later
        → is_busy c (stimuli ++ later) t ≡ is_busy c stimuli t }
    ensures configuration { (c : Circuit) (stimuli later : List Stimulus) (t : ℕ) → StandAfter t later
        → configuration_at c (stimuli ++ later) t ≡ configuration_at c stimuli t }
{}

/// A law: the configuration of the next instant comes of the one before and of the stimulus then.
pub fn configurations_go_on()
    ensures first { (c : Circuit) (stimuli : List Stimulus) → HaveDelays c
        → configuration_at c stimuli 0 ≡ first c (in_force stimuli 0) }
    ensures next { (c : Circuit) (stimuli : List Stimulus) (t : ℕ) → HaveDelays c
        → configuration_at c stimuli (t + 1) ≡ next c (in_force stimuli (t + 1)) (configuration_at c stimuli t) }
    ensures values { (c : Circuit) (stimuli : List Stimulus) (t net : ℕ)
        → nets_of c (configuration_at c stimuli t) net ≡ value_at c stimuli t net }
    ensures later { (c : Circuit) (stimuli : List Stimulus) (t n : ℕ) → HaveDelays c
        → configuration_at c stimuli (t + n) ≡ going_on c stimuli t (configuration_at c stimuli t) n }
    // What comes after an instant is a function of its configuration and of the stimuli after it.
    ensures function { (c : Circuit) (a b : List Stimulus) (t u n : ℕ) → HaveDelays c
        → configuration_at c a t ≡ configuration_at c b u
        → ((i : ℕ) → i < n → SamePut (in_force a (t + (i + 1))) (in_force b (u + (i + 1))))
        → configuration_at c a (t + n) ≡ configuration_at c b (u + n) }
    // A shift of all instants changes nothing.
    ensures shift { (later : ℕ) (c : Circuit) (stimuli : List Stimulus) (t : ℕ) (k : Configuration) (n : ℕ)
        → going_on c (shifted later stimuli) (t + later) k n ≡ going_on c stimuli t k n }
    // Where nothing else is due than what is shown it is this one again, while its stimulus stays.
    ensures again { (greatest : ℕ) (c : Circuit) (stimuli : List Stimulus) (t : ℕ) → All (IsSteady greatest) c.parts
        → IsStill c (configuration_at c stimuli t)
        → next c (stimulus_of (configuration_at c stimuli t)) (configuration_at c stimuli t) ≡ configuration_at c stimuli t }
    ensures rest { (greatest : ℕ) (c : Circuit) (stimuli : List Stimulus) (t : ℕ) → All (IsSteady greatest) c.parts
        → IsStill c (configuration_at c stimuli t) → IsAtRest c (configuration_at c stimuli t) }
{}

/// A law: what the evaluations of parts tell.
pub fn evaluations_are_counted()
    ensures first { (c : Circuit) (stimuli : List Stimulus) → evaluations_at c stimuli 0 ≡ length c.parts }
    ensures between { (c : Circuit) (stimuli : List Stimulus) (t : ℕ)
        → evaluations_between c (configuration_at c stimuli t) (configuration_at c stimuli (t + 1)) ≡ evaluations_at c stimuli (t + 1) }
    // A steady part without an evaluation keeps its state, and answers as at the instant before.
    ensures others { (greatest : ℕ) (c : Circuit) (stimuli : List Stimulus) (t : ℕ) → All (IsSteady greatest) c.parts
        → All (λ (p : Numbered). is_evaluated c stimuli (t + 1) p ≡ false → StaysAs c stimuli t p) (numbered_parts c) }
    ensures unattached { (c : Circuit) (stimuli : List Stimulus) (t : ℕ) (p : Numbered)
        → All (λ (port : Port). port.nets ≡ []) p.1.inputs → is_evaluated c stimuli (t + 1) p ≡ false }
    // After all has settled there is none.
    ensures settled { (c : Circuit) (stimuli : List Stimulus) (start settled u : ℕ) → StayFrom stimuli start
        → SettlesAt c stimuli start settled → settled < u → evaluations_at c stimuli u ≡ 0 }
{}

/// A law: the timeline of a NOT gate with rows 0 and 1, instant by instant, and its session table.
pub fn not_gate_answers_after_one_instant()
    ensures instant_0 { Shows 0 Bit.Zero Bit.Unknown false 1 }
    ensures instant_1 { Shows 1 Bit.Zero Bit.One true 0 }
    ensures instant_2 { Shows 2 Bit.One Bit.One false 1 }
    ensures instant_3 { Shows 3 Bit.One Bit.Zero true 0 }
    ensures later { (t : ℕ) → 3 < t → Shows t Bit.One Bit.Zero false 0 }
    ensures row_0 { SettlesAt not_circuit row_0 0 1 }
    ensures row_1 { SettlesAt not_circuit both_rows 2 3 }
    ensures table { (limit : ℕ) → 1 ≤ limit
        → IsTable not_circuit limit (one_word Bit.Zero ∷ one_word Bit.One ∷ []) not_table }
{}
