//! Modules, read from tokens.

ghost use Rattle.std.specs.Prelude.{codes};
ghost use Rattle.lg_vread.specs.Lexing.{left};
ghost use Rattle.lg_vread.specs.Reading.{Gives, Goes, Reads, is_at, all_at, goes_on, module_at, head_at, assign_at, maybe_edge_at, edge_at, edge_start_at, edge_kind_at, stmt_at, store_at, stored_at, store_if_at, condition_at, ends_at};

use crate::fault::ReadFault;
use crate::reader::Reader;
use lg_vtree::{Assign, Edge, EdgeKind, Expr, Module, Name, Port, Stmt};
use sqlite_items::Items;
use std::alloc::Global;

impl<'a> Reader<'a> {
    /// Takes a module whose expressions are at most so deep, and which is all that is left.
    #[tactic(auto, unfolding(crate::specs::Reading::module_at))]
    pub fn module(&mut self, alloc: Global, depth: usize) -> Result<Module, ReadFault>
        ensures { Reads result (module_at depth (left self.old)) }
    {
        let (name, ports) = self.head(alloc)?;
        let decls = self.decls(alloc)?;
        let init = self.maybe_init(alloc)?;
        let assigns = self.assigns(alloc, depth)?;
        let edge = self.maybe_edge(alloc, depth)?;
        self.end()?;
        Ok(Module {
            name,
            ports,
            decls,
            init,
            assigns,
            edge,
        })
    }

    /// The name and the ports.
    #[tactic(auto, unfolding(crate::specs::Reading::head_at))]
    fn head(&mut self, alloc: Global) -> Result<(Name, Items<Port>), ReadFault>
        ensures { Gives result (left self.new) (head_at (left self.old)) }
    {
        self.expect("module")?;
        let name = self.name(alloc)?;
        self.expect("(")?;
        let ports = self.ports(alloc)?;
        self.expect(")")?;
        self.expect(";")?;
        Ok((name, ports))
    }

    /// Takes the last word, with nothing behind it.
    #[tactic(auto, unfolding(crate::specs::Reading::ends_at))]
    fn end(&mut self) -> Result<(), ReadFault>
        ensures { Goes result (left self.new) (ends_at (left self.old)) }
    {
        self.expect("endmodule")?;
        if self.is_done() {
            Ok(())
        } else {
            Err(ReadFault::NotSubset)
        }
    }

    fn assigns(&mut self, alloc: Global, depth: usize) -> Result<Items<Assign>, ReadFault>
        ensures { Gives result (left self.new) (all_at (is_at (codes "assign")) (assign_at depth) (left self.old)) }
    {
        let mut assigns = Items::new(alloc);
        while self.is_at("assign") {
            assigns.push(self.assign(alloc, depth)?)?;
        }
        Ok(assigns)
    }

    #[tactic(auto, unfolding(crate::specs::Reading::assign_at))]
    fn assign(&mut self, alloc: Global, depth: usize) -> Result<Assign, ReadFault>
        ensures { Gives result (left self.new) (assign_at depth (left self.old)) }
    {
        self.expect("assign")?;
        let name = self.name(alloc)?;
        self.expect("=")?;
        let value = self.expr(alloc, depth)?;
        self.expect(";")?;
        Ok(Assign { name, value })
    }

    /// What is done at the edge, where something comes.
    #[tactic(auto, unfolding(crate::specs::Reading::maybe_edge_at))]
    fn maybe_edge(&mut self, alloc: Global, depth: usize) -> Result<Option<Edge>, ReadFault>
        ensures { Gives result (left self.new) (maybe_edge_at depth (left self.old)) }
    {
        if self.take("always") {
            Ok(Some(self.edge(alloc, depth)?))
        } else {
            Ok(None)
        }
    }

    /// After `always`.
    #[tactic(auto, unfolding(crate::specs::Reading::edge_at))]
    fn edge(&mut self, alloc: Global, depth: usize) -> Result<Edge, ReadFault>
        ensures { Gives result (left self.new) (edge_at depth (left self.old)) }
    {
        let kind = self.edge_start()?;
        let stmts = self.stmts(alloc, depth)?;
        self.expect("end")?;
        Ok(Edge { kind, stmts })
    }

    /// `@(posedge clk) begin`, or with `negedge`.
    #[tactic(auto, unfolding(crate::specs::Reading::edge_start_at))]
    fn edge_start(&mut self) -> Result<EdgeKind, ReadFault>
        ensures { Gives result (left self.new) (edge_start_at (left self.old)) }
    {
        self.expect("@")?;
        self.expect("(")?;
        let kind = self.edge_kind()?;
        self.expect_name("clk")?;
        self.expect(")")?;
        self.expect("begin")?;
        Ok(kind)
    }

    #[tactic(auto, unfolding(crate::specs::Reading::edge_kind_at))]
    fn edge_kind(&mut self) -> Result<EdgeKind, ReadFault>
        ensures { Gives result (left self.new) (edge_kind_at (left self.old)) }
    {
        if self.take("posedge") {
            return Ok(EdgeKind::Rising);
        }
        self.expect("negedge")?;
        Ok(EdgeKind::Falling)
    }

    fn stmts(&mut self, alloc: Global, depth: usize) -> Result<Items<Stmt>, ReadFault>
        ensures { Gives result (left self.new) (all_at goes_on (stmt_at depth) (left self.old)) }
    {
        let mut stmts = Items::new(alloc);
        while !self.is_at("end") {
            stmts.push(self.stmt(alloc, depth)?)?;
        }
        Ok(stmts)
    }

    #[tactic(auto, unfolding(crate::specs::Reading::stmt_at))]
    fn stmt(&mut self, alloc: Global, depth: usize) -> Result<Stmt, ReadFault>
        ensures { Gives result (left self.new) (stmt_at depth (left self.old)) }
    {
        if self.take("if") {
            self.store_if(alloc, depth)
        } else {
            self.store(alloc, depth)
        }
    }

    /// `name <= value;`
    #[tactic(auto, unfolding(crate::specs::Reading::store_at))]
    fn store(&mut self, alloc: Global, depth: usize) -> Result<Stmt, ReadFault>
        ensures { Gives result (left self.new) (store_at depth (left self.old)) }
    {
        let name = self.name(alloc)?;
        let value = self.stored(alloc, depth)?;
        Ok(Stmt::Store { name, value })
    }

    /// `<= value;`
    #[tactic(auto, unfolding(crate::specs::Reading::stored_at))]
    fn stored(&mut self, alloc: Global, depth: usize) -> Result<Expr, ReadFault>
        ensures { Gives result (left self.new) (stored_at depth (left self.old)) }
    {
        self.expect("<=")?;
        let value = self.expr(alloc, depth)?;
        self.expect(";")?;
        Ok(value)
    }

    /// After `if`.
    #[tactic(auto, unfolding(crate::specs::Reading::store_if_at, crate::specs::Reading::target_at))]
    fn store_if(&mut self, alloc: Global, depth: usize) -> Result<Stmt, ReadFault>
        ensures { Gives result (left self.new) (store_if_at depth (left self.old)) }
    {
        let condition = self.condition(alloc, depth)?;
        let name = self.name(alloc)?;
        self.expect("[")?;
        let address = self.expr(alloc, depth)?;
        self.expect("]")?;
        let value = self.stored(alloc, depth)?;
        Ok(Stmt::StoreIf {
            condition,
            name,
            address,
            value,
        })
    }

    /// `(condition)`
    #[tactic(auto, unfolding(crate::specs::Reading::condition_at))]
    fn condition(&mut self, alloc: Global, depth: usize) -> Result<Expr, ReadFault>
        ensures { Gives result (left self.new) (condition_at depth (left self.old)) }
    {
        self.expect("(")?;
        let condition = self.expr(alloc, depth)?;
        self.expect(")")?;
        Ok(condition)
    }
}
