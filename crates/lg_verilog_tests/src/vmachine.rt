//! Values that a person worked out, at the ends of the widths and of lists.

use lg_verilog::Operator;
use lg_vmachine::{Machine, Regs, Term, Write};
use sqlite_items::{Boxed, Items};
use std::alloc::{AllocError, Global};
use std::test::Fail;

const MAX: u128 = u128::MAX;

#[test]
fn operators_at_the_ends(rt: HostRuntime) -> Result<(), Fail> {
    let alloc = rt.alloc();
    let table = [
        (Operator::And, 128, MAX, 5, 5),
        (Operator::Or, 8, 0xf0, 0x0f, 0xff),
        (Operator::Xor, 128, MAX, MAX, 0),
        (Operator::Add, 8, 255, 255, 254),
        (
            Operator::Add,
            128,
            MAX,
            MAX,
            0xffff_ffff_ffff_ffff_ffff_ffff_ffff_fffe,
        ),
        (Operator::Subtract, 8, 0, 1, 255),
        (Operator::Subtract, 128, 0, MAX, 1),
        (Operator::Multiply, 8, 255, 255, 1),
        (Operator::Multiply, 128, MAX, MAX, 1),
        (Operator::Divide, 8, 255, 2, 127),
        (Operator::Divide, 8, 255, 0, 0),
        (Operator::Remainder, 8, 255, 16, 15),
        (Operator::Remainder, 8, 255, 0, 255),
        (Operator::Equal, 128, MAX, MAX, 1),
        (Operator::Less, 128, MAX, MAX, 0),
        (Operator::Less, 128, 0, MAX, 1),
        (Operator::ShiftLeft, 8, 255, 1, 254),
        (Operator::ShiftLeft, 8, 255, 8, 0),
        (Operator::ShiftLeft, 8, 255, 9, 0),
        (
            Operator::ShiftLeft,
            128,
            1,
            127,
            0x8000_0000_0000_0000_0000_0000_0000_0000,
        ),
        (Operator::ShiftLeft, 128, MAX, 128, 0),
        (Operator::ShiftLeft, 128, MAX, MAX, 0),
        (Operator::ShiftRight, 128, MAX, 127, 1),
        (Operator::ShiftRight, 128, MAX, 128, 0),
        (Operator::ShiftRight, 128, MAX, MAX, 0),
    ];
    for (operator, width, left, right, want) in table {
        let left = Boxed::new(alloc, Term::Const(left))?;
        let right = Boxed::new(alloc, Term::Const(right))?;
        let term = Term::Binary(width, left, operator, right);
        assert_eq!(rt; term.number(&[], &[]), want);
    }
    Ok(())
}

#[test]
fn parts_of_words_and_joins(rt: HostRuntime) -> Result<(), Fail> {
    let alloc = rt.alloc();
    let numbers = [0xabcd, MAX];
    let middle = Term::Part {
        index: 0,
        low: 4,
        width: 8,
    };
    let top = Term::Part {
        index: 1,
        low: 124,
        width: 4,
    };
    assert_eq!(rt; middle.number(&numbers, &[]), 0xbc);
    assert_eq!(rt; top.number(&numbers, &[]), 15);
    assert_eq!(rt; Term::Number(2).number(&numbers, &[]), 0);
    let pair = Term::Join(Boxed::new(alloc, top)?, 8, Boxed::new(alloc, middle)?);
    let triple = Term::Join(
        Boxed::new(alloc, pair)?,
        12,
        Boxed::new(alloc, Term::Const(0x123))?,
    );
    assert_eq!(rt; triple.number(&numbers, &[]), 0xfb_c123);
    let complement = Term::Not(24, Boxed::new(alloc, triple)?);
    assert_eq!(rt; complement.number(&numbers, &[]), 0x04_3edc);
    Ok(())
}

// The input is number 0, the registers 1 and 2, their sum with the input 3, and the word at the input 4.
// An edge stores the sum into the first register, the word into the second, and, where the input is not 0,
// the sum at the input.
fn counter(alloc: Global) -> Result<Machine, AllocError> {
    let sum = Term::Binary(
        8,
        Boxed::new(alloc, Term::Number(1))?,
        Operator::Add,
        Boxed::new(alloc, Term::Number(0))?,
    );
    let word = Term::Item(0, Boxed::new(alloc, Term::Number(0))?);
    let mut machine = Machine {
        equations: Items::new(alloc),
        outputs: Items::from_slice(alloc, &[3, 4])?,
        registers: Items::new(alloc),
        memories: Items::new(alloc),
    };
    machine.equations.push(sum)?;
    machine.equations.push(word)?;
    machine.registers.push(Some(Term::Number(3)))?;
    machine.registers.push(Some(Term::Number(4)))?;
    machine.memories.push(Some(Write {
        condition: Term::Number(0),
        address: Term::Number(0),
        value: Term::Number(3),
    }))?;
    Ok(machine)
}

#[test]
fn an_edge_reads_the_word_that_it_writes(rt: HostRuntime) -> Result<(), Fail> {
    let alloc = rt.alloc();
    let machine = counter(alloc)?;
    let mut memories = Vec::new(alloc);
    memories.push(Items::from_slice(alloc, &[7, 9])?)?;
    let mut regs = Regs {
        numbers: [254, 5].to_vec(alloc)?,
        memories,
    };
    let rows: [(u64, [u128; 5], [u128; 2], [u128; 2]); 3] = [
        (1, [1, 254, 5, 255, 9], [255, 9], [7, 255]),
        (1, [1, 255, 9, 0, 255], [0, 255], [7, 0]),
        (0, [0, 0, 255, 0, 7], [0, 7], [7, 0]),
    ];
    for (input, numbers, registers, words) in rows {
        let solved = machine.solve(alloc, &regs, &[input]).ok().ok_or("memory")?;
        assert_eq!(rt; solved.as_slice(), numbers.as_slice());
        assert!(rt; machine.store(alloc, &mut regs, solved.as_slice()).is_ok());
        assert_eq!(rt; regs.numbers.as_slice(), registers.as_slice());
        for memory in regs.memories.iter() {
            assert_eq!(rt; memory.as_slice(), words.as_slice());
        }
    }
    Ok(())
}

#[test]
fn outputs_are_the_numbers_at_their_indexes(rt: HostRuntime) -> Result<(), Fail> {
    let alloc = rt.alloc();
    let machine = counter(alloc)?;
    let outputs = machine
        .outputs(alloc, &[1, 250, 5, 251, 9])
        .ok()
        .ok_or("memory")?;
    assert_eq!(rt; outputs.as_slice(), [251, 9].as_slice());
    Ok(())
}
