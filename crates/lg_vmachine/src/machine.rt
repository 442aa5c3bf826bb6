//! Equations over indexes, ready to run.

ghost use Rattle.std.specs.Prelude.{◌≡◌, ◌++◌, ◌<◌, ◌^◌, All, Some, IfOk, OnOk, OnErr, map, zip, slice_index_or};
ghost use Rattle.lg_vmachine.specs.Machine.{run, next_number, written, put_words, put_word, stored_by};

use crate::regs::Regs;
use crate::term::Term;
use lg_vtree::Memory;
use sqlite_items::Items;
use std::alloc::{AllocError, Global};

/// What a module computes: numbers stand in the order inputs, registers, assigns.
#[derive(Debug, Drop)]
pub struct Machine {
    /// What the assigns give, each after those that it reads.
    pub equations: Items<Term>,
    /// The indexes of the outputs' numbers.
    pub outputs: Items<usize>,
    /// What an edge stores into each register.
    pub registers: Items<Option<Term>>,
    /// What an edge stores into each memory.
    pub memories: Items<Option<Write>>,
}

/// A store into a memory: a value at an address, where the condition is not 0.
#[derive(Debug, Drop)]
pub struct Write {
    pub condition: Term,
    pub address: Term,
    pub value: Term,
}

impl Machine {
    /// The numbers of the solution for these inputs: of the inputs, of the registers, and of what the assigns give.
    pub fn solve(&self, alloc: Global, regs: &Regs, inputs: &[u64]) -> Result<Vec<u128>, Memory>
        ensures { IfOk result (λ numbers. numbers.items ≡ run regs.now.memories (inputs.now ++ regs.now.numbers) self.now.equations) }
    {
        let mut numbers = Vec::new(alloc);
        for input in inputs {
            numbers.push(u128::from(*input))?;
        }
        for number in regs.numbers.iter() {
            numbers.push(*number)?;
        }
        for term in self.equations.as_slice() {
            let number = term.number(numbers.as_slice(), regs.memories.as_slice());
            numbers.push(number)?;
        }
        Ok(numbers)
    }

    /// The outputs among the numbers of a solution.
    pub fn outputs(&self, alloc: Global, numbers: &[u128]) -> Result<Vec<u64>, Memory>
        requires { All (λ index. slice_index_or numbers.now index 0 < 2 ^ 64) self.now.outputs }
        ensures { IfOk result (λ outputs. outputs.items ≡ map (λ index. slice_index_or numbers.now index 0) self.now.outputs) }
    {
        let mut outputs = Vec::new(alloc);
        for index in self.outputs.as_slice() {
            outputs.push(numbers.get(*index).copied().unwrap_or(0) as u64)?;
        }
        Ok(outputs)
    }

    /// One edge, where the solution has these numbers. All that is stored is computed before anything is.
    pub fn store(&self, alloc: Global, regs: &mut Regs, numbers: &[u128]) -> Result<(), Memory>
        ensures ok { OnOk result (regs.new ≡ stored_by self.now numbers.now regs.old) }
        ensures err { OnErr result (regs.new ≡ regs.old) }
    {
        let next = self.next_numbers(alloc, regs, numbers)?;
        let words = self.written(alloc, regs, numbers)?;
        regs.numbers = next;
        put_words(&mut regs.memories, words.as_slice());
        Ok(())
    }

    fn next_numbers(
        &self,
        alloc: Global,
        regs: &Regs,
        numbers: &[u128],
    ) -> Result<Vec<u128>, AllocError>
        ensures { IfOk result (λ next. next.items ≡ map (next_number regs.now.memories numbers.now) (zip self.now.registers regs.now.numbers)) }
    {
        let mut next = Vec::new(alloc);
        for (term, old) in self.registers.as_slice().iter().zip(regs.numbers.iter()) {
            next.push(match term {
                Some(term) => term.number(numbers, regs.memories.as_slice()),
                None => *old,
            })?;
        }
        Ok(next)
    }

    // What is written into each memory, and where.
    fn written(
        &self,
        alloc: Global,
        regs: &Regs,
        numbers: &[u128],
    ) -> Result<Vec<Option<(u128, u128)>>, AllocError>
        ensures { IfOk result (λ words. words.items ≡ map (written regs.now.memories numbers.now) self.now.memories) }
    {
        let mut words = Vec::new(alloc);
        for write in self.memories.as_slice() {
            words.push(word_of(write, numbers, regs.memories.as_slice()))?;
        }
        Ok(words)
    }
}

impl Write {
    // The address and the value that are written; none where the condition is 0.
    fn word(&self, numbers: &[u128], memories: &[Items<u128>]) -> Option<(u128, u128)>
        ensures { result ≡ written memories.now numbers.now (Some self.now) }
    {
        if self.condition.number(numbers, memories) == 0 {
            None
        } else {
            Some((
                self.address.number(numbers, memories),
                self.value.number(numbers, memories),
            ))
        }
    }
}

// What is written into a memory; none where nothing ever is.
fn word_of(
    write: &Option<Write>,
    numbers: &[u128],
    memories: &[Items<u128>],
) -> Option<(u128, u128)>
    ensures { result ≡ written memories.now numbers.now write.now }
{
    match write {
        Some(write) => write.word(numbers, memories),
        None => None,
    }
}

// Puts words into memories, each into the one at its index.
fn put_words(memories: &mut Vec<Items<u128>>, words: &[Option<(u128, u128)>])
    ensures { memories.new.items ≡ put_words 0 words.now memories.old.items }
{
    for (at, word) in words.iter().enumerate() {
        if let Some((address, value)) = word {
            put_word(memories, at, *address, *value);
        }
    }
}

/// Puts a word at an address of one of the memories, where there is that address.
pub fn put_word(memories: &mut Vec<Items<u128>>, memory: usize, address: u128, value: u128)
    ensures { memories.new.items ≡ put_word memories.old.items memory address value }
{
    if memory < memories.len() && address < memories[memory].len() as u128 {
        memories[memory].set(address as usize, value);
    }
}
