//! Why there is no answer.

ghost use Rattle.std.specs.Prelude.{◌≡◌};
ghost use Rattle.lg_vrules.specs.declared.fault.RuleFault.TheVariants.{Memory as NoMemory};

use lg_vtree::Memory;

/// Why a module does not pass.
#[derive(Clone, Copy, Debug, PartialEq, Eq)]
pub enum RuleFault {
    /// It breaks a rule: the least such, from 1 to 7.
    Broken { rule: u32 },
    /// There was no memory.
    Memory,
}

impl From<Memory> for RuleFault {
    ghost from_gives = { λ _ fault. fault ≡ NoMemory };

    fn from(_: Memory) -> RuleFault {
        RuleFault::Memory
    }
}
