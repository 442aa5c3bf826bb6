//! The ends of a splitter: which bits they have.

ghost use Rattle.std.specs.Prelude.{◌≡◌, ◌++◌, ◌≤◌, map, length, count_by, codes, IfOk, OnOk};
ghost use Rattle.std.specs.List.{range_with_len};
ghost use Rattle.lg_ports.specs.Given.{seen_given, number};
ghost use Rattle.lg_ports.specs.SplitterEnds.{end_ports, ports_of_end, end_of, even_end, is_end};

use crate::given::{Given, number_of};
use crate::splitter_place::end_place;
use lg_kinds::rows::Count;
use lg_kinds::{Loose, Port, Side};
use sqlite_items::Items;
use std::alloc::{AllocError, Global};

// Adds the ports of the ends that have bits. No kind but a splitter has ends.
pub fn push_ends(alloc: Global, list: &mut Items<Port>, given: &Given) -> Result<(), AllocError>
    ensures { OnOk result (list.new ≡ list.old ++ end_ports (seen_given given.now)) }
{
    let ends = bit_ends(alloc, given)?;
    for i in 0..given.number("fanout") {
        push_end(list, given, ends.as_slice(), i)?;
    }
    Ok(())
}

fn push_end(
    list: &mut Items<Port>,
    given: &Given,
    ends: &[Option<u32>],
    i: u32,
) -> Result<(), AllocError>
    requires ends { ends.now ≡ map (end_of (seen_given given.now)) (range_with_len 0 (number (seen_given given.now) (codes "incoming"))) }
    requires few { length ends.now ≤ 99 }
    requires i { i ≤ 99 }
    ensures { OnOk result (list.new ≡ list.old ++ ports_of_end (seen_given given.now) i) }
{
    let width = bits_of(ends, i);
    if width == 0 {
        return Ok(());
    }
    let (dx, dy) = end_place(given, i);
    list.push(Port {
        dx,
        dy,
        width,
        side: Side::Both,
        loose: Loose::Unknown,
    })
}

// How many bits go to an end.
fn bits_of(ends: &[Option<u32>], i: u32) -> u32
    requires { length ends.now ≤ 99 }
    ensures { result ≡ count_by (λ end. is_end end i) ends.now }
{
    let mut bits = 0;
    for end in ends {
        if is_end(*end, i) {
            bits += 1;
        }
    }
    bits
}

fn is_end(end: Option<u32>, i: u32) -> bool
    ensures { result ≡ is_end end i }
{
    match end {
        Some(number) => number == i,
        None => false,
    }
}

// The end of each bit.
fn bit_ends(alloc: Global, given: &Given) -> Result<Items<Option<u32>>, AllocError>
    ensures few { IfOk result (λ ends. length ends ≤ 99) }
    ensures ends { IfOk result
        (λ ends. ends ≡ map (end_of (seen_given given.now)) (range_with_len 0 (number (seen_given given.now) (codes "incoming")))) }
{
    let mut ends = Items::new(alloc);
    for k in 0..given.number("incoming") {
        let end = end_of(alloc, given, k)?;
        ends.push(end)?;
    }
    Ok(ends)
}

// The end of a bit: the one that its attribute numbers, or that of the even split.
fn end_of(alloc: Global, given: &Given, k: u32) -> Result<Option<u32>, AllocError>
    requires { k ≤ 99 }
    ensures { IfOk result (λ end. end ≡ end_of (seen_given given.now) k) }
{
    match given.numbered_value(alloc, "bit", Count::Incoming, k) {
        Ok(Some(text)) => Ok(number_of(text)),
        Ok(None) => Ok(Some(even_end(given.number("incoming"), given.number("fanout"), k))),
        Err(e) => Err(e),
    }
}

// The end of a bit in the even split.
fn even_end(incoming: u32, fanout: u32, k: u32) -> u32
    requires incoming { incoming ≤ 99 }
    requires k { k ≤ 99 }
    ensures { result ≡ even_end incoming fanout k }
{
    let each = incoming / fanout.max(1);
    let more = incoming % fanout.max(1);
    let longer = more * (each + 1);
    if k < longer {
        k / (each + 1)
    } else {
        more + (k - longer) / each.max(1)
    }
}
