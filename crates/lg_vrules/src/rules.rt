//! The rules that a valid module keeps, each as a test of the whole module.

ghost use Rattle.std.specs.Prelude.{◌≡◌, ◌≤◌, ◌&&◌};
ghost use Rattle.std.specs.List.{list_all};
ghost use Rattle.lg_vrules.specs.Known.{sort_under, width_under, AreNarrow};
ghost use Rattle.lg_vrules.specs.Things.{port_thing, decl_thing};
ghost use Rattle.lg_vrules.specs.Rules.{is_named, is_narrow, are_narrow, stmts_of, fills_of, words_of, assign_uses, stmt_uses};

use crate::names::NameIndex;
use lg_vtree::{Assign, Decl, Direction, Edge, Fill, Init, Module, Port, Stmt, Word};

/// Whether each input is `clk` with one bit or begins with `i_`, and each output begins with `o_`.
pub fn ports_are_named(module: &Module) -> bool
    ensures { result ≡ list_all (λ port. is_named (port_thing port)) «module».now.ports }
{
    module.ports.as_slice().iter().all(|port| is_named(port))
}

fn is_named(port: &Port) -> bool
    ensures { result ≡ is_named (port_thing port.now) }
{
    let name = port.name.as_str();
    match port.direction {
        Direction::Input if name == "clk" => port.range.high().is_none(),
        Direction::Input => name.starts_with("i_"),
        Direction::Output => name.starts_with("o_"),
    }
}

/// Whether no width is greater than 128, and none of a port greater than 64.
pub fn are_narrow(module: &Module) -> bool
    ensures { result ≡ are_narrow «module».now }
{
    ports_are_narrow(module.ports.as_slice()) && decls_are_narrow(module.decls.as_slice())
}

fn ports_are_narrow(ports: &[Port]) -> bool
    ensures { result ≡ list_all (λ port. is_narrow (port_thing port)) ports.now }
{
    ports.iter().all(|port| port_is_narrow(port))
}

fn decls_are_narrow(decls: &[Decl]) -> bool
    ensures { result ≡ list_all (λ decl. is_narrow (decl_thing decl)) decls.now }
{
    decls.iter().all(|decl| decl_is_narrow(decl))
}

fn port_is_narrow(port: &Port) -> bool
    ensures { result ≡ is_narrow (port_thing port.now) }
{
    let most = match port.direction {
        Direction::Input if port.name.as_str() == "clk" => 128,
        _ => 64,
    };
    port.range.high().map_or(true, |high| high < most)
}

fn decl_is_narrow(decl: &Decl) -> bool
    ensures { result ≡ is_narrow (decl_thing decl.now) }
{
    let (Decl::Wire { range, .. } | Decl::Reg { range, .. } | Decl::Memory { range, .. }) = decl;
    range.high().map_or(true, |high| high < 128)
}

/// What is done at the edge; nothing where there is none.
pub fn stmts(module: &Module) -> &[Stmt]
    ensures { result.now ≡ stmts_of «module».now }
{
    match &module.edge {
        Some(edge) => edge.stmts.as_slice(),
        None => &[],
    }
}

/// The fills of the memories.
pub fn fills(module: &Module) -> &[Fill]
    ensures { result.now ≡ fills_of «module».now }
{
    match &module.init {
        Some(init) => init.fills.as_slice(),
        None => &[],
    }
}

/// The words of the memories.
pub fn words(module: &Module) -> &[Word]
    ensures { result.now ≡ words_of «module».now }
{
    match &module.init {
        Some(init) => init.words.as_slice(),
        None => &[],
    }
}
