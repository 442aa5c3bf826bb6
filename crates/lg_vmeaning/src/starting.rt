//! Where a module starts.

ghost use Rattle.std.specs.Prelude.{◌≡◌, filter_map, fold, IfOk, None};
ghost use Rattle.lg_vrules.specs.Rules.{first_broken};
ghost use Rattle.lg_vmeaning.specs.Rows.{start, start_number};
ghost use Rattle.lg_vmeaning.specs.Starting.{filled_memory, filled_by, with_word_by};

use crate::kept_names::{Storage, kept_names};
use lg_vmachine::{Regs, put_word};
use lg_vrules::{Indexes, filled_names, fills, words};
use lg_vtree::{Decl, Fill, Memory, Module, Word};
use sqlite_items::{Items, at};
use std::alloc::{AllocError, Global};

/// Registers and memories at the start.
pub fn start(alloc: Global, module: &Module) -> Result<Regs, Memory>
    requires { first_broken «module».now ≡ None }
    ensures { IfOk result (λ regs. regs ≡ start «module».now) }
{
    let numbers = start_numbers(alloc, module.decls.as_slice())?;
    let mut memories = filled_memories(alloc, module)?;
    let names = kept_names(alloc, module, Storage::Memory)?;
    let indexes = Indexes::of(alloc, names.as_slice())?;
    put_words(&mut memories, &indexes, words(module));
    Ok(Regs { numbers, memories })
}

fn start_numbers(alloc: Global, decls: &[Decl]) -> Result<Vec<u128>, AllocError>
    ensures { IfOk result (λ numbers. numbers.items ≡ filter_map start_number decls.now) }
{
    let mut numbers = Vec::new(alloc);
    for decl in decls {
        if let Decl::Reg { start, .. } = decl {
            numbers.push(start.value)?;
        }
    }
    Ok(numbers)
}

// The memories before the words of the init.
fn filled_memories(alloc: Global, module: &Module) -> Result<Vec<Items<u128>>, Memory>
    requires { first_broken «module».now ≡ None }
    ensures { IfOk result (λ memories. memories.items ≡ filter_map (filled_memory «module».now) «module».now.decls) }
{
    let names = filled_names(alloc, fills(module))?;
    let indexes = Indexes::of(alloc, names.as_slice())?;
    let mut memories = Vec::new(alloc);
    for decl in module.decls.as_slice() {
        if let Decl::Memory { name, last, .. } = decl {
            let value = filled_with(&indexes, fills(module), name.as_str());
            memories.push(Items::from_vec(vec![in alloc; value; *last as usize + 1]?))?;
        }
    }
    Ok(memories)
}

// The number that fills the memory of this name.
fn filled_with(indexes: &Indexes, fills: &[Fill], name: &str) -> u128
    ensures { result ≡ filled_by indexes.now fills.now name.now }
{
    indexes
        .get(name)
        .and_then(|index| at(fills, index))
        .map_or(0, |fill| fill.value.value)
}

// Puts words into the memories of their names.
fn put_words(memories: &mut Vec<Items<u128>>, indexes: &Indexes, words: &[Word])
    ensures { memories.new.items ≡ fold (with_word_by indexes.now) memories.old.items words.now }
{
    for word in words {
        if let Some(memory) = indexes.get(word.name.as_str()) {
            put_word(memories, memory, word.address, word.value.value);
        }
    }
}
