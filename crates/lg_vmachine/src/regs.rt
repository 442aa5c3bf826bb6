//! What a module keeps from row to row.

use sqlite_items::Items;
use std::marker::Model;

/// The numbers of the registers and the words of the memories of a module, each in the order of the declarations.
#[derive(Debug, Drop)]
pub struct Regs {
    pub numbers: Vec<u128>,
    pub memories: Vec<Items<u128>>,
}

impl Model for Regs {
    ghost use Rattle.lg_vmachine.specs.Kept.{Kept};

    ghost Value = { Kept };

    ghost view = { λ regs. record {
      numbers = regs.numbers.items;
      memories = regs.memories.items;
    } };
}
