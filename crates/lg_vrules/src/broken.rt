//! The first rule that a module breaks.

ghost use Rattle.std.specs.Prelude.{◌≡◌, true, Some, None, IfOk, IfErr, OnOk};
ghost use Rattle.lg_vrules.specs.Known.{IsIndex, AreNarrow, sort_under};
ghost use Rattle.lg_vrules.specs.Rules.{first_broken, last_broken, are_narrow, are_kept_once};
ghost use Rattle.lg_vrules.specs.Broken.{IsBroken};
ghost use Rattle.lg_vrules.specs.declared.fault.RuleFault.TheVariants.{Broken};

use crate::divisors::are_divided_safely;
use crate::fault::RuleFault;
use crate::names::NameIndex;
use crate::rules::{are_narrow, ports_are_named};
use lg_vtree::{Memory, Module};
use std::alloc::Global;

/// What the names of a module stand for, where it keeps the seven rules; else the first rule that it breaks.
pub fn checked_names(alloc: Global, module: &Module) -> Result<NameIndex, RuleFault>
    ensures rules { OnOk result (first_broken «module».now ≡ None) }
    ensures index { IfOk result (λ names. IsIndex «module».now (Some names)) }
    ensures narrow { IfOk result AreNarrow }
    ensures fault { IfErr result (IsBroken «module».now) }
{
    let Some(names) = NameIndex::of(alloc, module)? else {
        return Err(RuleFault::Broken { rule: 1 });
    };
    match names.first_broken(alloc, module)? {
        Some(rule) => Err(RuleFault::Broken { rule }),
        None => Ok(names),
    }
}

impl NameIndex {
    // The first of the seven rules that a module of these names breaks; none where it keeps them.
    fn first_broken(&self, alloc: Global, module: &Module) -> Result<Option<u32>, Memory>
        requires { IsIndex «module».now (Some self.now) }
        ensures { IfOk result (λ broken. broken ≡ first_broken «module».now) }
    {
        if !ports_are_named(module) {
            return Ok(Some(1));
        }
        if !self.are_used(module) {
            return Ok(Some(2));
        }
        if !are_narrow(module) {
            return Ok(Some(3));
        }
        self.first_broken_of_last(alloc, module)
    }

    // The first of the rules from the third on that a module of narrow names breaks.
    fn first_broken_of_last(&self, alloc: Global, module: &Module) -> Result<Option<u32>, Memory>
        requires index { IsIndex «module».now (Some self.now) }
        requires narrow { are_narrow «module».now ≡ true }
        ensures { IfOk result (λ broken. broken ≡ last_broken «module».now) }
    {
        if !self.are_fitting(module) {
            return Ok(Some(3));
        }
        if !self.are_assigned_once(alloc, module)? {
            return Ok(Some(4));
        }
        if !self.are_kept_once(alloc, module)? {
            return Ok(Some(5));
        }
        if !are_divided_safely(module) {
            return Ok(Some(6));
        }
        if !self.are_addressed(module) {
            return Ok(Some(7));
        }
        Ok(None)
    }

    // Whether registers and memories are stored and filled as often as they must be.
    fn are_kept_once(&self, alloc: Global, module: &Module) -> Result<bool, Memory>
        ensures { IfOk result (λ answer. answer ≡ are_kept_once (sort_under self.now) «module».now) }
    {
        if !self.are_stored_once(alloc, module)? {
            return Ok(false);
        }
        self.are_filled_once(alloc, module)
    }
}
