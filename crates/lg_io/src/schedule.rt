//! Which calls of an object in memory fail, and how many did.

ghost use Rattle.std.specs.Prelude.{◌≡◌, ◌↔◌, ◌⊎◌, ◌≤◌, Contains, IsTrue, if◌then◌else◌};
ghost use Rattle.lg_io.specs.Fault.{next_count};

/// The numbers of the calls that fail, the number of the next call, and how many calls have failed.
#[derive(Debug, Drop)]
pub(crate) struct Schedule {
    pub(crate) fails: Vec<u64>,
    pub(crate) calls: u64,
    pub(crate) faults: u64,
}

impl Schedule {
    pub(crate) fn new(fails: Vec<u64>) -> Schedule
        ensures { result ≡ record { fails = fails; calls = 0; faults = 0 } }
    {
        Schedule {
            fails,
            calls: 0,
            faults: 0,
        }
    }

    /// Counts a call, and answers whether it fails: because the schedule says so, or because it is
    /// refused anyway.
    pub(crate) fn next_fails(&mut self, is_refused: bool) -> bool
        ensures fails_at { IsTrue result ↔
            (Contains self.old.fails.items self.old.calls ⊎ IsTrue is_refused) }
        ensures never_falls { self.old.faults ≤ self.new.faults }
        ensures counted { self.new ≡ record self.old {
          calls = next_count self.old.calls;
          faults = if result then next_count self.old.faults else self.old.faults;
        } }
    {
        let call = self.calls;
        self.calls = call.saturating_add(1);
        let fails = is_refused || self.fails.contains(&call);
        if fails {
            self.faults = self.faults.saturating_add(1);
        }
        fails
    }
}
