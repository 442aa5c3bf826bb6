//! What the names of a module stand for.

ghost use Rattle.std.specs.Prelude.{◌≡◌, IfOk, codes};
ghost use Rattle.lg_vrules.specs.Known.{IsIndex, Adds, under, sort_under};
ghost use Rattle.lg_vrules.specs.Things.{port_sort, port_thing, decl_thing};

use lg_vtree::{Decl, Direction, Memory, Module, Name, Port};
use std::alloc::Global;
use std::collections::BTreeMap;

/// What a name stands for.
#[derive(Clone, Copy, Debug, PartialEq, Eq)]
pub enum Sort {
    /// The input `clk`.
    Clock,
    Input,
    Output,
    Wire,
    Reg,
    /// Words from address 0 to a last one.
    Memory(u128),
}

/// What a name is declared as: its sort, and the high index of its range where it has one.
#[derive(Clone, Copy, Debug, PartialEq, Eq)]
pub struct Thing {
    pub sort: Sort,
    pub high: Option<u128>,
}

/// What each name of a module is declared as.
#[derive(Drop)]
pub struct NameIndex {
    things: BTreeMap<String, Thing>,
}

impl NameIndex {
    /// The names of a module; none where two of them are equal.
    pub fn of(alloc: Global, module: &Module) -> Result<Option<NameIndex>, Memory>
        ensures { IfOk result (IsIndex «module».now) }
    {
        let mut names = NameIndex {
            things: BTreeMap::new(alloc),
        };
        for port in module.ports.as_slice() {
            if !names.add(alloc, &port.name, thing_of_port(port))? {
                return Ok(None);
            }
        }
        for decl in module.decls.as_slice() {
            let (name, thing) = thing_of_decl(decl);
            if !names.add(alloc, name, thing)? {
                return Ok(None);
            }
        }
        Ok(Some(names))
    }

    // Adds a name; false where it was there.
    fn add(&mut self, alloc: Global, name: &Name, thing: Thing) -> Result<bool, Memory>
        ensures { IfOk result (Adds self.old self.new name.now thing) }
    {
        let key = String::from_str(alloc, name.as_str())?;
        let before = self.things.insert(key, thing)?;
        Ok(before.is_none())
    }

    /// What a name stands for, where it is declared.
    pub fn sort(&self, name: &Name) -> Option<Sort>
        ensures { result ≡ sort_under self.now name.now }
    {
        Some(self.get(name)?.sort)
    }

    /// What `clk` stands for, where it is declared.
    pub fn clock(&self) -> Option<Sort>
        ensures { result ≡ sort_under self.now (codes "clk") }
    {
        Some(self.things.get("clk").copied()?.sort)
    }

    /// What a name is declared as, where it is.
    pub fn get(&self, name: &Name) -> Option<Thing>
        ensures { result ≡ under self.now name.now }
    {
        self.things.get(name.as_str()).copied()
    }
}

fn thing_of_port(port: &Port) -> Thing
    ensures { (port.now.name, result) ≡ port_thing port.now }
{
    Thing {
        sort: sort_of_port(port),
        high: port.range.high(),
    }
}

/// What a port is.
pub fn sort_of_port(port: &Port) -> Sort
    ensures { result ≡ port_sort port.now.direction port.now.name }
{
    match port.direction {
        Direction::Input if port.name.as_str() == "clk" => Sort::Clock,
        Direction::Input => Sort::Input,
        Direction::Output => Sort::Output,
    }
}

/// The name of a declaration, and what it is.
pub fn thing_of_decl(decl: &Decl) -> (&Name, Thing)
    ensures { (result.0.now, result.1) ≡ decl_thing decl.now }
{
    let (sort, range, name) = match decl {
        Decl::Wire { range, name } => (Sort::Wire, range, name),
        Decl::Reg { range, name, .. } => (Sort::Reg, range, name),
        Decl::Memory { range, name, last } => (Sort::Memory(*last), range, name),
    };
    let high = range.high();
    (name, Thing { sort, high })
}
