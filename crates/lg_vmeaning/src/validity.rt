//! Valid modules.

ghost use Rattle.std.specs.Prelude.{◌≡◌, ◌<◌, Some, length, slice_get, IfOk, IfErr, OnOk};
ghost use Rattle.lg_vtree.specs.declared.module.Assign.{Assign as Given};
ghost use Rattle.lg_vmeaning.specs.Valid.{IsValid, IsInvalid, rule_fault};
ghost use Rattle.lg_vmeaning.specs.declared.validity.MeanFault.TheVariants.{Memory as NoMemory};

use crate::valid_module::Valid;
use lg_text::Text;
use lg_vrules::{Dependence, RuleFault, assign_order, checked_names};
use lg_vtree::{Assign, Memory, Module};
use std::alloc::{AllocError, Global};

/// Why a module is not valid.
#[derive(Debug, Drop)]
pub enum MeanFault {
    /// It breaks a rule: the least such, from 1 to 7.
    NotValid { rule: u32 },
    /// It keeps the rules, and a wire or an output depends on itself: that of the first such assign.
    Cyclic { wire: Text },
    /// There was no memory.
    Memory,
}

impl From<Memory> for MeanFault {
    ghost from_gives = { λ _ fault. fault ≡ NoMemory };

    fn from(_: Memory) -> MeanFault {
        MeanFault::Memory
    }
}

impl From<AllocError> for MeanFault {
    ghost from_gives = { λ _ fault. fault ≡ NoMemory };

    fn from(_: AllocError) -> MeanFault {
        MeanFault::Memory
    }
}

impl From<RuleFault> for MeanFault {
    ghost from_gives = { λ rule fault. fault ≡ rule_fault rule };

    fn from(fault: RuleFault) -> MeanFault {
        match fault {
            RuleFault::Broken { rule } => MeanFault::NotValid { rule },
            RuleFault::Memory => MeanFault::Memory,
        }
    }
}

/// The module as a valid one.
///
/// It is refused with the number of the first rule that does not hold, from 1 on, or, where all hold, with the name of the
/// first assign that depends on itself.
pub fn valid(alloc: Global, module: Module) -> Result<Valid, MeanFault>
    ensures same { IfOk result (λ v. v ≡ «module») }
    ensures is_valid { OnOk result (IsValid «module») }
    ensures fault { IfErr result (IsInvalid «module») }
{
    let names = checked_names(alloc, &module)?;
    match assign_order(alloc, &module)? {
        Dependence::Ordered(order) => Ok(Valid::new(alloc, module, &names, order)?),
        Dependence::Cyclic(at) => {
            let wire = name_at(module.assigns.as_slice(), at);
            Err(MeanFault::Cyclic {
                wire: Text::copy_of(alloc, wire)?,
            })
        }
    }
}

// The name that the assign at an index gives a number.
fn name_at(assigns: &[Assign], at: usize) -> &str
    requires { at < length assigns.now }
    ensures { (assign : Given) → slice_get assigns.now at ≡ Some assign → result.now ≡ assign.name }
{
    assigns[at].name.as_str()
}
