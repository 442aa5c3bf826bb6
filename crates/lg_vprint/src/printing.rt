//! Modules as text, in the printed layout.

ghost use Rattle.std.specs.Prelude.{◌≡◌, ◌++◌, IfOk, OnOk, IsTrue};
ghost use Rattle.std.specs.List.{flat_map, list_all, AllByRecursion};
ghost use Rattle.lg_vtree.specs.Token.{is_name, is_number, is_range};
ghost use Rattle.lg_vtree.specs.Printed.{range_text, direction_text, port_text, ports_text, decl_text, loop_text, fill_text, word_text, starts_text, init_text, assign_text, always_text, stmt_text, edge_text, head_text, module_text};
ghost use Rattle.lg_vtree.specs.Grammar.{is_token, port_tokens, decl_tokens, fill_tokens, word_tokens, init_tokens, assign_tokens, stmt_tokens, edge_tokens, decl_range, is_high, IsTree, IsModuleText};

use crate::expr_printing::{put, put_constant, put_expr, put_number};
use lg_vtree::{
    Assign, Decl, Direction, Edge, EdgeKind, Fill, Init, Memory, Module, Port, Range, Stmt, Word,
};
use std::alloc::{AllocError, Global};

/// What stands before the fills.
const INIT_HEAD: &str = "  integer k;\n  initial begin\n";

/// The text of a module in the printed layout: a line for each item, in the module's order.
///
/// It is a text of the module in the grammar. So `read_module` gives this module for it, where it is within the limits and there is memory.
#[tactic(auto, using(crate::proofs::Told::printed))]
pub fn print(alloc: Global, module: &Module) -> Result<Vec<u8>, Memory>
    ensures text { IfOk result (λ text. text.items ≡ module_text «module».now) }
    // The types of the tree keep its names, numbers and ranges to those of the subset.
    ensures is_tree { OnOk result (IsTree «module».now) }
    // What is printed is a text of the module in the grammar.
    ensures read_again { IfOk result (λ text. IsModuleText text.items «module».now) }
{
    let mut out = Vec::new(alloc);
    put_module(alloc, &mut out, module)?;
    Ok(out)
}

#[tactic(auto, using(crate::proofs::Parts::tree_from_parts))]
fn put_module(alloc: Global, out: &mut Vec<u8>, module: &Module) -> Result<(), AllocError>
    ensures text { OnOk result (out.new.items ≡ out.old.items ++ module_text «module».now) }
    ensures is_tree { OnOk result (IsTree «module».now) }
{
    put_head(alloc, out, module)?;
    put_decls(alloc, out, module.decls.as_slice())?;
    put_init(alloc, out, &module.init)?;
    put_assigns(alloc, out, module.assigns.as_slice())?;
    put_edge(alloc, out, &module.edge)?;
    put(out, "endmodule\n")
}

fn put_head(alloc: Global, out: &mut Vec<u8>, module: &Module) -> Result<(), AllocError>
    ensures text { OnOk result (out.new.items ≡ out.old.items ++ head_text «module».now) }
    ensures is_name { OnOk result (IsTrue (is_name «module».now.name)) }
    ensures ports { OnOk result (IsTrue (list_all is_token (flat_map port_tokens «module».now.ports))) }
    ensures are_high { OnOk result (AllByRecursion (λ p. IsTrue (is_high p.range)) «module».now.ports) }
{
    put(out, "module ")?;
    put(out, module.name.as_str())?;
    put(out, "(\n")?;
    put_ports(alloc, out, module.ports.as_slice())?;
    put(out, ");\n")
}

fn put_ports(alloc: Global, out: &mut Vec<u8>, ports: &[Port]) -> Result<(), AllocError>
    ensures text { OnOk result (out.new.items ≡ out.old.items ++ ports_text ports.now) }
    ensures tokens { OnOk result (IsTrue (list_all is_token (flat_map port_tokens ports.now))) }
    ensures are_high { OnOk result (AllByRecursion (λ p. IsTrue (is_high p.range)) ports.now) }
{
    for (i, port) in ports.iter().enumerate() {
        put_port(alloc, out, port)?;
        put(out, if i + 1 < ports.len() { ",\n" } else { "\n" })?;
    }
    Ok(())
}

fn put_decls(alloc: Global, out: &mut Vec<u8>, decls: &[Decl]) -> Result<(), AllocError>
    ensures text { OnOk result (out.new.items ≡ out.old.items ++ flat_map decl_text decls.now) }
    ensures tokens { OnOk result (IsTrue (list_all is_token (flat_map decl_tokens decls.now))) }
    ensures are_high { OnOk result (AllByRecursion (λ d. IsTrue (is_high (decl_range d))) decls.now) }
{
    for decl in decls {
        put_decl(alloc, out, decl)?;
    }
    Ok(())
}

#[tactic(auto, using(crate::proofs::Parts::init_from_parts))]
fn put_init(alloc: Global, out: &mut Vec<u8>, init: &Option<Init>) -> Result<(), AllocError>
    ensures text { OnOk result (out.new.items ≡ out.old.items ++ init_text init.now) }
    ensures tokens { OnOk result (IsTrue (list_all is_token (init_tokens init.now))) }
{
    match init {
        None => Ok(()),
        Some(init) => {
            put(out, INIT_HEAD)?;
            put_starts(alloc, out, init)?;
            put(out, "  end\n")
        }
    }
}

fn put_starts(alloc: Global, out: &mut Vec<u8>, init: &Init) -> Result<(), AllocError>
    ensures text { OnOk result (out.new.items ≡ out.old.items ++ starts_text init.now) }
    ensures fills { OnOk result (IsTrue (list_all is_token (flat_map fill_tokens init.now.fills))) }
    ensures words { OnOk result (IsTrue (list_all is_token (flat_map word_tokens init.now.words))) }
{
    put_fills(alloc, out, init.fills.as_slice())?;
    put_words(alloc, out, init.words.as_slice())
}

fn put_fills(alloc: Global, out: &mut Vec<u8>, fills: &[Fill]) -> Result<(), AllocError>
    ensures text { OnOk result (out.new.items ≡ out.old.items ++ flat_map fill_text fills.now) }
    ensures tokens { OnOk result (IsTrue (list_all is_token (flat_map fill_tokens fills.now))) }
{
    for fill in fills {
        put_fill(alloc, out, fill)?;
    }
    Ok(())
}

fn put_words(alloc: Global, out: &mut Vec<u8>, words: &[Word]) -> Result<(), AllocError>
    ensures text { OnOk result (out.new.items ≡ out.old.items ++ flat_map word_text words.now) }
    ensures tokens { OnOk result (IsTrue (list_all is_token (flat_map word_tokens words.now))) }
{
    for word in words {
        put_word(alloc, out, word)?;
    }
    Ok(())
}

fn put_assigns(alloc: Global, out: &mut Vec<u8>, assigns: &[Assign]) -> Result<(), AllocError>
    ensures text { OnOk result (out.new.items ≡ out.old.items ++ flat_map assign_text assigns.now) }
    ensures tokens { OnOk result (IsTrue (list_all is_token (flat_map assign_tokens assigns.now))) }
{
    for assign in assigns {
        put_assign(alloc, out, assign)?;
    }
    Ok(())
}

#[tactic(auto, using(crate::proofs::Parts::edge_from_stmts))]
fn put_edge(alloc: Global, out: &mut Vec<u8>, edge: &Option<Edge>) -> Result<(), AllocError>
    ensures text { OnOk result (out.new.items ≡ out.old.items ++ edge_text edge.now) }
    ensures tokens { OnOk result (IsTrue (list_all is_token (edge_tokens edge.now))) }
{
    match edge {
        None => Ok(()),
        Some(edge) => {
            put(out, always_str(edge.kind))?;
            put_stmts(alloc, out, edge.stmts.as_slice())?;
            put(out, "  end\n")
        }
    }
}

fn put_stmts(alloc: Global, out: &mut Vec<u8>, stmts: &[Stmt]) -> Result<(), AllocError>
    ensures text { OnOk result (out.new.items ≡ out.old.items ++ flat_map stmt_text stmts.now) }
    ensures tokens { OnOk result (IsTrue (list_all is_token (flat_map stmt_tokens stmts.now))) }
{
    for stmt in stmts {
        put_stmt(alloc, out, stmt)?;
    }
    Ok(())
}

#[tactic(auto, using(crate::proofs::Parts::port_from_parts, crate::proofs::Parts::high_from_range))]
fn put_port(alloc: Global, out: &mut Vec<u8>, port: &Port) -> Result<(), AllocError>
    ensures text { OnOk result (out.new.items ≡ out.old.items ++ port_text port.now) }
    ensures tokens { OnOk result (IsTrue (list_all is_token (port_tokens port.now))) }
    ensures is_high { OnOk result (IsTrue (is_high port.now.range)) }
{
    put(out, "  ")?;
    put(out, direction_str(port.direction))?;
    put_range(alloc, out, &port.range)?;
    put(out, port.name.as_str())
}

fn direction_str(direction: Direction) -> &'static str
    ensures { result.now ≡ direction_text direction }
{
    match direction {
        Direction::Input => "input wire ",
        Direction::Output => "output wire ",
    }
}

fn always_str(kind: EdgeKind) -> &'static str
    ensures { result.now ≡ always_text kind }
{
    match kind {
        EdgeKind::Rising => "  always @(posedge clk) begin\n",
        EdgeKind::Falling => "  always @(negedge clk) begin\n",
    }
}

fn put_range(alloc: Global, out: &mut Vec<u8>, range: &Range) -> Result<(), AllocError>
    ensures text { OnOk result (out.new.items ≡ out.old.items ++ range_text range.now) }
    ensures is_range { OnOk result (IsTrue (is_range range.now)) }
{
    match range.high() {
        None => Ok(()),
        Some(high) => {
            put(out, "[")?;
            put_number(alloc, out, high)?;
            put(out, ":0] ")
        }
    }
}

#[tactic(auto, using(crate::proofs::Parts::after_range, crate::proofs::Parts::high_from_range))]
fn put_decl(alloc: Global, out: &mut Vec<u8>, decl: &Decl) -> Result<(), AllocError>
    ensures text { OnOk result (out.new.items ≡ out.old.items ++ decl_text decl.now) }
    ensures tokens { OnOk result (IsTrue (list_all is_token (decl_tokens decl.now))) }
    ensures is_high { OnOk result (IsTrue (is_high (decl_range decl.now))) }
{
    match decl {
        Decl::Wire { range, name } => {
            put(out, "  wire ")?;
            put_range(alloc, out, range)?;
            put(out, name.as_str())?;
            put(out, ";\n")
        }
        Decl::Reg { range, name, start } => {
            put(out, "  reg ")?;
            put_range(alloc, out, range)?;
            put(out, name.as_str())?;
            put(out, " = ")?;
            put_constant(alloc, out, *start)?;
            put(out, ";\n")
        }
        Decl::Memory { range, name, last } => {
            put(out, "  reg ")?;
            put_range(alloc, out, range)?;
            put(out, name.as_str())?;
            put(out, " [0:")?;
            put_number(alloc, out, *last)?;
            put(out, "];\n")
        }
    }
}

#[tactic(auto, unfolding(lg_vtree::specs::Printed::fill_text))]
fn put_fill(alloc: Global, out: &mut Vec<u8>, fill: &Fill) -> Result<(), AllocError>
    ensures text { OnOk result (out.new.items ≡ out.old.items ++ fill_text fill.now) }
    ensures tokens { OnOk result (IsTrue (list_all is_token (fill_tokens fill.now))) }
{
    put_loop(alloc, out, fill.count)?;
    put(out, fill.name.as_str())?;
    put(out, "[k] = ")?;
    put_constant(alloc, out, fill.value)?;
    put(out, ";\n")
}

fn put_loop(alloc: Global, out: &mut Vec<u8>, count: u128) -> Result<(), AllocError>
    ensures text { OnOk result (out.new.items ≡ out.old.items ++ loop_text count) }
    ensures is_number { OnOk result (IsTrue (is_number count)) }
{
    put(out, "    for (k = 0; k < ")?;
    put_number(alloc, out, count)?;
    put(out, "; k = k + 1) ")
}

fn put_word(alloc: Global, out: &mut Vec<u8>, word: &Word) -> Result<(), AllocError>
    ensures text { OnOk result (out.new.items ≡ out.old.items ++ word_text word.now) }
    ensures tokens { OnOk result (IsTrue (list_all is_token (word_tokens word.now))) }
{
    put(out, "    ")?;
    put(out, word.name.as_str())?;
    put(out, "[")?;
    put_number(alloc, out, word.address)?;
    put(out, "] = ")?;
    put_constant(alloc, out, word.value)?;
    put(out, ";\n")
}

#[tactic(auto, using(crate::proofs::Parts::assign_from_parts))]
fn put_assign(alloc: Global, out: &mut Vec<u8>, assign: &Assign) -> Result<(), AllocError>
    ensures text { OnOk result (out.new.items ≡ out.old.items ++ assign_text assign.now) }
    ensures tokens { OnOk result (IsTrue (list_all is_token (assign_tokens assign.now))) }
{
    put(out, "  assign ")?;
    put(out, assign.name.as_str())?;
    put(out, " = ")?;
    put_expr(alloc, out, &assign.value)?;
    put(out, ";\n")
}

#[tactic(auto, using(crate::proofs::Parts::store_from_parts, crate::proofs::Parts::store_if_from_parts))]
fn put_stmt(alloc: Global, out: &mut Vec<u8>, stmt: &Stmt) -> Result<(), AllocError>
    ensures text { OnOk result (out.new.items ≡ out.old.items ++ stmt_text stmt.now) }
    ensures tokens { OnOk result (IsTrue (list_all is_token (stmt_tokens stmt.now))) }
{
    match stmt {
        Stmt::Store { name, value } => {
            put(out, "    ")?;
            put(out, name.as_str())?;
            put(out, " <= ")?;
            put_expr(alloc, out, value)?;
            put(out, ";\n")
        }
        Stmt::StoreIf {
            condition,
            name,
            address,
            value,
        } => {
            put(out, "    if (")?;
            put_expr(alloc, out, condition)?;
            put(out, ") ")?;
            put(out, name.as_str())?;
            put(out, "[")?;
            put_expr(alloc, out, address)?;
            put(out, "] <= ")?;
            put_expr(alloc, out, value)?;
            put(out, ";\n")
        }
    }
}
