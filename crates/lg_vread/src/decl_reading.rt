//! Ports and declarations, read from tokens.

ghost use Rattle.std.specs.Prelude.{◌≡◌};
ghost use Rattle.lg_vread.specs.Lexing.{left};
ghost use Rattle.lg_vread.specs.Reading.{Gives, Goes, all_at, after_number, range_at, high_at, direction_at, port_at, ports_at, declares, decl_at, wire_at, reg_at, start_at, memory_at};

use crate::fault::ReadFault;
use crate::reader::Reader;
use lg_vtree::{Decl, Direction, Name, Port, Range};
use sqlite_items::Items;
use std::alloc::Global;

impl<'a> Reader<'a> {
    /// Takes all ports up to a `)`.
    pub fn ports(&mut self, alloc: Global) -> Result<Items<Port>, ReadFault>
        ensures { Gives result (left self.new) (ports_at (left self.old)) }
    {
        let mut ports = Items::new(alloc);
        if self.is_at(")") {
            return Ok(ports);
        }
        ports.push(self.port(alloc)?)?;
        while self.take(",") {
            ports.push(self.port(alloc)?)?;
        }
        Ok(ports)
    }

    #[tactic(auto, unfolding(crate::specs::Reading::port_at))]
    fn port(&mut self, alloc: Global) -> Result<Port, ReadFault>
        ensures { Gives result (left self.new) (port_at (left self.old)) }
    {
        let direction = self.direction()?;
        self.expect("wire")?;
        let range = self.range()?;
        let name = self.name(alloc)?;
        Ok(Port {
            direction,
            range,
            name,
        })
    }

    #[tactic(auto, unfolding(crate::specs::Reading::direction_at))]
    fn direction(&mut self) -> Result<Direction, ReadFault>
        ensures { Gives result (left self.new) (direction_at (left self.old)) }
    {
        if self.take("input") {
            return Ok(Direction::Input);
        }
        self.expect("output")?;
        Ok(Direction::Output)
    }

    /// `[h:0]`, or nothing.
    #[tactic(auto, unfolding(crate::specs::Reading::range_at))]
    fn range(&mut self) -> Result<Range, ReadFault>
        ensures { Gives result (left self.new) (range_at (left self.old)) }
    {
        if self.take("[") {
            self.high()
        } else {
            Ok(Range::bit())
        }
    }

    /// A range after its `[`.
    #[tactic(auto, unfolding(crate::specs::Reading::high_at))]
    fn high(&mut self) -> Result<Range, ReadFault>
        ensures { Gives result (left self.new) (high_at (left self.old)) }
    {
        let high = self.number()?;
        self.expect(":")?;
        self.expect_number(0)?;
        self.expect("]")?;
        if high >= 1 {
            Ok(Range::down_from(high))
        } else {
            Err(ReadFault::NotSubset)
        }
    }

    /// Takes all declarations that come.
    pub fn decls(&mut self, alloc: Global) -> Result<Items<Decl>, ReadFault>
        ensures { Gives result (left self.new) (all_at declares decl_at (left self.old)) }
    {
        let mut decls = Items::new(alloc);
        while self.is_at_decl() {
            decls.push(self.decl(alloc)?)?;
        }
        Ok(decls)
    }

    /// Whether a declaration comes next.
    fn is_at_decl(&self) -> bool
        ensures { result ≡ declares (left self.now) }
    {
        self.is_at("wire") || self.is_at("reg")
    }

    #[tactic(auto, unfolding(crate::specs::Reading::decl_at))]
    fn decl(&mut self, alloc: Global) -> Result<Decl, ReadFault>
        ensures { Gives result (left self.new) (decl_at (left self.old)) }
    {
        if self.take("wire") {
            return self.wire(alloc);
        }
        self.expect("reg")?;
        self.reg(alloc)
    }

    /// After `wire`.
    #[tactic(auto, unfolding(crate::specs::Reading::wire_at))]
    fn wire(&mut self, alloc: Global) -> Result<Decl, ReadFault>
        ensures { Gives result (left self.new) (wire_at (left self.old)) }
    {
        let range = self.range()?;
        let name = self.name(alloc)?;
        self.expect(";")?;
        Ok(Decl::Wire { range, name })
    }

    /// After `reg`.
    #[tactic(auto, unfolding(crate::specs::Reading::reg_at))]
    fn reg(&mut self, alloc: Global) -> Result<Decl, ReadFault>
        ensures { Gives result (left self.new) (reg_at (left self.old)) }
    {
        let range = self.range()?;
        let name = self.name(alloc)?;
        if self.take("=") {
            self.start(range, name)
        } else {
            self.memory(range, name)
        }
    }

    /// After `reg`, a range, a name and `=`.
    #[tactic(auto, unfolding(crate::specs::Reading::start_at))]
    fn start(&mut self, range: Range, name: Name) -> Result<Decl, ReadFault>
        ensures { Gives result (left self.new) (start_at range name (left self.old)) }
    {
        let start = self.constant()?;
        self.expect(";")?;
        Ok(Decl::Reg { range, name, start })
    }

    /// After `reg`, a range and a name, where no `=` comes.
    #[tactic(auto, unfolding(crate::specs::Reading::memory_at))]
    fn memory(&mut self, range: Range, name: Name) -> Result<Decl, ReadFault>
        ensures { Gives result (left self.new) (memory_at range name (left self.old)) }
    {
        self.expect("[")?;
        self.expect_number(0)?;
        self.expect(":")?;
        let last = self.number()?;
        self.expect("]")?;
        self.expect(";")?;
        Ok(Decl::Memory { range, name, last })
    }
}
