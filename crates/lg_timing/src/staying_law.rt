//! The laws of a configuration whose stimulus stays: what is said of it is what the lists of
//! stimuli that lead to it have.

ghost use Rattle.std.specs.Prelude.{◌≡◌, ◌↔◌, ℕ, ◌+◌, ◌<◌, ◌≤◌, ◌++◌, false, List, [], ◌∷◌, Option, Some, None, ◌⊎◌, All};
ghost use Rattle.lg_timing.specs.declared.settling.Settling.{Settling as Ending};
ghost use Rattle.lg_timing.specs.Circuit.{Word, Circuit, Stimulus};
ghost use Rattle.lg_timing.specs.Instant.{in_force};
ghost use Rattle.lg_timing.specs.Settling.{is_busy, IsNextBusyAfter, busy_count, SettlesWithin, OscillatesPast, IsSteady, StayFrom};
ghost use Rattle.lg_timing.specs.Configuration.{Configuration, configuration_at, next, staying, SamePut, IsAtRest, HaveDelays};
ghost use Rattle.lg_timing.specs.Evaluation.{evaluations, IsSettling};
ghost use Rattle.lg_timing.specs.Session.{Line, Stop, Table, IsTable, GoesOn};
ghost use Rattle.lg_timing.specs.RowByRow.{GoesOnFrom, IsTableOn};
ghost use Rattle.lg_timing.specs.Staying.{is_busy_on, busy_count_on, IsNextBusy, SettlesIn, OscillatesIn, configuration_put, evaluations_on, evaluations_since, IsSettlingOn, stood_before, IsLedTo, HasStood};

/// A law: what is said of a configuration while its stimulus stays is what the instants have, for
/// all stimuli that lead to it, where the last of them stands then or before.
pub fn configurations_tell_settling()
    ensures stays { (c : Circuit) (stimuli : List Stimulus) (start n : ℕ) → HaveDelays c → StayFrom stimuli start
        → staying c (configuration_at c stimuli start) n ≡ configuration_at c stimuli (start + n) }
    ensures busy { (c : Circuit) (stimuli : List Stimulus) (start n : ℕ) → HaveDelays c → StayFrom stimuli start → 1 ≤ n
        → is_busy_on c (configuration_at c stimuli start) n ≡ is_busy c stimuli (start + n) }
    ensures next { (c : Circuit) (stimuli : List Stimulus) (start after at : ℕ) → HaveDelays c → StayFrom stimuli start
        → IsNextBusy c (configuration_at c stimuli start) after at ↔ IsNextBusyAfter c stimuli (start + after) (start + at) }
    ensures count { (c : Circuit) (stimuli : List Stimulus) (start n : ℕ) → HaveDelays c → StayFrom stimuli start
        → busy_count_on c (configuration_at c stimuli start) n ≡ busy_count c stimuli start n }
    ensures settles { (c : Circuit) (stimuli : List Stimulus) (start limit took : ℕ) → HaveDelays c → StayFrom stimuli start
        → SettlesIn c (configuration_at c stimuli start) limit took ↔ SettlesWithin c stimuli start limit (start + took) }
    ensures oscillates { (c : Circuit) (stimuli : List Stimulus) (start limit after : ℕ) → HaveDelays c → StayFrom stimuli start
        → OscillatesIn c (configuration_at c stimuli start) limit after ↔ OscillatesPast c stimuli start limit after }
{}

/// A law: what becomes of a stimulus that is put on what stood is what becomes of the last one of
/// all stimuli that lead there.
pub fn stimuli_are_put_on_what_stood()
    ensures put { (c : Circuit) (stimuli : List Stimulus) (start : ℕ) → HaveDelays c
        → configuration_put c (stood_before c stimuli start) (in_force stimuli start) ≡ configuration_at c stimuli start }
    // Where it stands one instant behind others, what stood is where those had come to.
    ensures behind { (c : Circuit) (stimuli : List Stimulus) (s : Stimulus) (t : ℕ) → HaveDelays c → StayFrom stimuli t → s.from ≡ t + 1
        → configuration_at c (stimuli ++ s ∷ []) (t + 1) ≡ configuration_put c (Some (configuration_at c stimuli t)) s }
    ensures evaluations { (c : Circuit) (stimuli : List Stimulus) (start n : ℕ) → HaveDelays c → StayFrom stimuli start
        → evaluations_since c (stood_before c stimuli start) (in_force stimuli start) n ≡ evaluations c stimuli start (n + 1) }
    ensures settling { (c : Circuit) (stimuli : List Stimulus) (start limit : ℕ) (settling : Ending) → HaveDelays c → StayFrom stimuli start
        → IsSettlingOn c (stood_before c stimuli start) (in_force stimuli start) limit settling ↔ IsSettling c stimuli start limit settling }
    // Nothing of what came before it matters.
    ensures alone { (c : Circuit) (a b : List Stimulus) (t u limit : ℕ) (settling : Ending) → HaveDelays c → StayFrom a t → StayFrom b u
        → stood_before c a t ≡ stood_before c b u → SamePut (in_force a t) (in_force b u)
        → IsSettling c a t limit settling → IsSettling c b u limit settling }
{}

/// A law: a configuration to which stimuli lead, in a circuit of steady parts, settles within a
/// limit or oscillates past it, and never both, at one instant.
pub fn configurations_settle_or_oscillate()
    ensures one { (greatest : ℕ) (c : Circuit) (k : Configuration) (limit : ℕ) → All (IsSteady greatest) c.parts → IsLedTo c k
        → ((took : ℕ) × SettlesIn c k limit took) ⊎ ((after : ℕ) × OscillatesIn c k limit after) }
    ensures not_both { (c : Circuit) (k : Configuration) (limit took after : ℕ)
        → SettlesIn c k limit took → OscillatesIn c k limit after → ⊥ }
    ensures one_instant { (c : Circuit) (k : Configuration) (limit a b : ℕ)
        → SettlesIn c k limit a → SettlesIn c k limit b → a ≡ b }
    ensures one_number { (c : Circuit) (k : Configuration) (limit a b : ℕ)
        → OscillatesIn c k limit a → OscillatesIn c k limit b → a ≡ b }
    // The next busy instant is one, or there is none.
    ensures next { (greatest : ℕ) (c : Circuit) (k : Configuration) (after : ℕ) → All (IsSteady greatest) c.parts → IsLedTo c k
        → ((busy : ℕ) × IsNextBusy c k after busy) ⊎ ((n : ℕ) → after < n → is_busy_on c k n ≡ false) }
    ensures one_next { (c : Circuit) (k : Configuration) (after a b : ℕ)
        → IsNextBusy c k after a → IsNextBusy c k after b → a ≡ b }
    // A stretch as long as the greatest delay without a busy instant is followed by none.
    ensures stretch { (greatest : ℕ) (c : Circuit) (k : Configuration) (after : ℕ) → All (IsSteady greatest) c.parts → IsLedTo c k
        → ((n : ℕ) → after < n → n ≤ after + greatest → is_busy_on c k n ≡ false)
        → (n : ℕ) → after < n → is_busy_on c k n ≡ false }
    // Once it has settled it is at rest, and stays as it is.
    ensures at_rest { (c : Circuit) (k : Configuration) (limit took : ℕ) → HaveDelays c → IsLedTo c k
        → SettlesIn c k limit took → IsAtRest c (staying c k took) }
    ensures rest { (greatest : ℕ) (c : Circuit) (k : Configuration) (limit took n : ℕ) → All (IsSteady greatest) c.parts → IsLedTo c k
        → SettlesIn c k limit took → staying c k (took + n) ≡ staying c k took }
{}

/// A law: stimuli lead to all that comes of a configuration to which they lead.
pub fn stimuli_lead_on()
    ensures put { (c : Circuit) (stood : Option Configuration) (s : Stimulus) → HaveDelays c → HasStood c stood
        → IsLedTo c (configuration_put c stood s) }
    ensures stays { (c : Circuit) (k : Configuration) (n : ℕ) → HaveDelays c → IsLedTo c k → IsLedTo c (staying c k n) }
{}

/// A law: what comes of a configuration may be counted on from a later one.
pub fn later_configurations_tell_the_same()
    ensures stays { (c : Circuit) (k : Configuration) (m n : ℕ) → staying c (staying c k m) n ≡ staying c k (m + n) }
    ensures busy { (c : Circuit) (k : Configuration) (m n : ℕ) → 1 ≤ n
        → is_busy_on c (staying c k m) n ≡ is_busy_on c k (m + n) }
    ensures next { (c : Circuit) (k : Configuration) (m n : ℕ) → IsNextBusy c (staying c k m) 0 n → IsNextBusy c k m (m + n) }
    ensures evaluations { (c : Circuit) (k : Configuration) (m n : ℕ)
        → evaluations_on c k (m + n) ≡ evaluations_on c k m + evaluations_on c (staying c k m) n }
    // After it has settled there is none.
    ensures settled { (c : Circuit) (k : Configuration) (limit took n : ℕ) → HaveDelays c → IsLedTo c k → SettlesIn c k limit took
        → evaluations_on c k (took + n) ≡ evaluations_on c k took }
{}

/// A law: rows one after another, each put on what the one before has left, are the session table,
/// with its stop.
pub fn rows_go_from_one_configuration_to_the_next()
    ensures table { (c : Circuit) (limit : ℕ) (rows : List (List Word)) (table : Table) → HaveDelays c
        → IsTableOn c limit rows table ↔ IsTable c limit rows table }
    // So it is from any row on.
    ensures rest { (c : Circuit) (limit : ℕ) (stimuli : List Stimulus) (t row : ℕ) (rows : List (List Word)) (lines : List Line) (stop : Option Stop)
        → HaveDelays c → StayFrom stimuli t
        → GoesOnFrom c limit (Some (configuration_at c stimuli t)) row rows lines stop ↔ GoesOn c limit stimuli row (t + 1) rows lines stop }
{}
