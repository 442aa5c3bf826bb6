//! The stimulus at an instant.

ghost use Rattle.std.specs.Prelude.{◌≡◌};
ghost use Rattle.lg_timing.specs.Instant.{silence, in_force};

use crate::{Stimulus, Words};
use lg_value::Bit;
use std::alloc::Global;

// Nothing on any pin.
pub(crate) fn silence(alloc: Global) -> Stimulus
    ensures { result ≡ silence }
{
    Stimulus::new(0, Words::new(Vec::new(alloc)), Bit::Unknown)
}

// The stimulus at an instant: the last that stands at it or before.
pub(crate) fn in_force<'a>(
    silent: &'a Stimulus,
    stimuli: &'a [Stimulus],
    instant: u64,
) -> &'a Stimulus
    requires { silent.now ≡ silence }
    ensures { result.now ≡ in_force stimuli.now instant }
{
    let mut force = silent;
    for later in stimuli {
        if later.from() <= instant {
            force = later;
        }
    }
    force
}
