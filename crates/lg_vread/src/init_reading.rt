//! What memories hold at the start, read from tokens.

ghost use Rattle.std.specs.Prelude.{codes};
ghost use Rattle.lg_vread.specs.Lexing.{left};
ghost use Rattle.lg_vread.specs.Reading.{Gives, Goes, is_at, all_at, goes_on, maybe_init_at, init_at, init_start_at, fill_at, loop_start_at, loop_test_at, loop_step_at, filled_at, value_at, word_at};

use crate::fault::ReadFault;
use crate::reader::Reader;
use lg_vtree::{Constant, Fill, Init, Name, Word};
use sqlite_items::Items;
use std::alloc::Global;

impl<'a> Reader<'a> {
    /// Takes an init, where one comes.
    #[tactic(auto, unfolding(crate::specs::Reading::maybe_init_at))]
    pub fn maybe_init(&mut self, alloc: Global) -> Result<Option<Init>, ReadFault>
        ensures { Gives result (left self.new) (maybe_init_at (left self.old)) }
    {
        if self.take("integer") {
            Ok(Some(self.init(alloc)?))
        } else {
            Ok(None)
        }
    }

    /// After `integer`.
    #[tactic(auto, unfolding(crate::specs::Reading::init_at))]
    fn init(&mut self, alloc: Global) -> Result<Init, ReadFault>
        ensures { Gives result (left self.new) (init_at (left self.old)) }
    {
        self.init_start()?;
        let fills = self.fills(alloc)?;
        let words = self.words(alloc)?;
        self.expect("end")?;
        Ok(Init { fills, words })
    }

    /// After `integer`, up to what the memories hold.
    #[tactic(auto, unfolding(crate::specs::Reading::init_start_at))]
    fn init_start(&mut self) -> Result<(), ReadFault>
        ensures { Goes result (left self.new) (init_start_at (left self.old)) }
    {
        self.expect("k")?;
        self.expect(";")?;
        self.expect("initial")?;
        self.expect("begin")
    }

    fn fills(&mut self, alloc: Global) -> Result<Items<Fill>, ReadFault>
        ensures { Gives result (left self.new) (all_at (is_at (codes "for")) fill_at (left self.old)) }
    {
        let mut fills = Items::new(alloc);
        while self.is_at("for") {
            fills.push(self.fill(alloc)?)?;
        }
        Ok(fills)
    }

    #[tactic(auto, unfolding(crate::specs::Reading::fill_at))]
    fn fill(&mut self, alloc: Global) -> Result<Fill, ReadFault>
        ensures { Gives result (left self.new) (fill_at (left self.old)) }
    {
        self.loop_start()?;
        let count = self.loop_test()?;
        self.loop_step()?;
        let name = self.filled(alloc)?;
        let value = self.value()?;
        Ok(Fill { name, count, value })
    }

    /// `for (k = 0;`
    #[tactic(auto, unfolding(crate::specs::Reading::loop_start_at))]
    fn loop_start(&mut self) -> Result<(), ReadFault>
        ensures { Goes result (left self.new) (loop_start_at (left self.old)) }
    {
        self.expect("for")?;
        self.expect("(")?;
        self.expect("k")?;
        self.expect("=")?;
        self.expect_number(0)?;
        self.expect(";")
    }

    /// `k < count;`
    #[tactic(auto, unfolding(crate::specs::Reading::loop_test_at))]
    fn loop_test(&mut self) -> Result<u128, ReadFault>
        ensures { Gives result (left self.new) (loop_test_at (left self.old)) }
    {
        self.expect("k")?;
        self.expect("<")?;
        let count = self.number()?;
        self.expect(";")?;
        Ok(count)
    }

    /// `k = k + 1)`
    #[tactic(auto, unfolding(crate::specs::Reading::loop_step_at))]
    fn loop_step(&mut self) -> Result<(), ReadFault>
        ensures { Goes result (left self.new) (loop_step_at (left self.old)) }
    {
        self.expect("k")?;
        self.expect("=")?;
        self.expect("k")?;
        self.expect("+")?;
        self.expect_number(1)?;
        self.expect(")")
    }

    /// `name[k]`
    #[tactic(auto, unfolding(crate::specs::Reading::filled_at))]
    fn filled(&mut self, alloc: Global) -> Result<Name, ReadFault>
        ensures { Gives result (left self.new) (filled_at (left self.old)) }
    {
        let name = self.name(alloc)?;
        self.expect("[")?;
        self.expect("k")?;
        self.expect("]")?;
        Ok(name)
    }

    /// `= value;`
    #[tactic(auto, unfolding(crate::specs::Reading::value_at))]
    fn value(&mut self) -> Result<Constant, ReadFault>
        ensures { Gives result (left self.new) (value_at (left self.old)) }
    {
        self.expect("=")?;
        let value = self.constant()?;
        self.expect(";")?;
        Ok(value)
    }

    fn words(&mut self, alloc: Global) -> Result<Items<Word>, ReadFault>
        ensures { Gives result (left self.new) (all_at goes_on word_at (left self.old)) }
    {
        let mut words = Items::new(alloc);
        while !self.is_at("end") {
            words.push(self.word(alloc)?)?;
        }
        Ok(words)
    }

    #[tactic(auto, unfolding(crate::specs::Reading::word_at))]
    fn word(&mut self, alloc: Global) -> Result<Word, ReadFault>
        ensures { Gives result (left self.new) (word_at (left self.old)) }
    {
        let name = self.name(alloc)?;
        self.expect("[")?;
        let address = self.number()?;
        self.expect("]")?;
        let value = self.value()?;
        Ok(Word {
            name,
            address,
            value,
        })
    }
}
