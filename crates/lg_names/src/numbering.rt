//! Classes numbered by first appearance.

ghost use Rattle.std.specs.Prelude.{◌≡◌, ◌<◌, ◌^◌, length, All, IfOk};
ghost use Rattle.lg_names.specs.Numbering.{IsNumbering, NumbersNext};

use std::alloc::{AllocError, Global};

/// Numbers from 0 for labels, in the order in which they first appear, and how many there are. Equal labels, and no
/// others, have one number.
pub fn numbered(alloc: Global, labels: &[u32], bound: usize) -> Result<(Vec<u32>, u32), AllocError>
    requires few { length labels.now < 2 ^ 32 }
    requires small { All (λ label. label < bound) labels.now }
    ensures { IfOk result (λ found. IsNumbering ◌≡◌ labels.now found.0.items found.1) }
{
    let mut known = vec![in alloc; None; bound]?;
    let mut numbers = Vec::with_capacity(alloc, labels.len())?;
    let mut count = 0;
    for label in labels {
        let number = number_for(&mut known, *label, count);
        if number == count {
            count += 1;
        }
        numbers.push(number)?;
    }
    Ok((numbers, count))
}

// The number that is known for a label, or the next one, which is known from then on.
fn number_for(known: &mut [Option<u32>], label: u32, next: u32) -> u32
    requires { label < length known.old }
    ensures { NumbersNext known.old known.new label next result }
{
    match known[label as usize] {
        Some(number) => number,
        None => {
            known[label as usize] = Some(next);
            next
        }
    }
}
