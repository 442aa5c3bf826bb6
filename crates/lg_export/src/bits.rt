//! What net bits say: runs of bits of what drives them.

ghost use Rattle.std.specs.Prelude.{◌≡◌, ◌<◌, false, map, reverse, length, IfOk};
ghost use Rattle.lg_netlist.specs.Acceptance.{is_undriven};
ghost use Rattle.lg_netlist.specs.Drivers.{IsDriver};
ghost use Rattle.lg_export.specs.Layout.{bit_of, bit_on, goes_on, on_top, run_expr, in_braces, bits_value};
ghost use Rattle.lg_export.specs.Readable.{IsReadable};
ghost use Rattle.lg_export.specs.Stack.{KnowsDrivers, as_run, as_bit, stack};

use crate::names::{clock_name, input_name, output_wire};
use lg_netlist::{Driver, Netlist};
use lg_vtree::{Expr, Name};
use sqlite_items::{Boxed, Items};
use std::alloc::{AllocError, Global};

/// What drives each net of a netlist.
#[derive(Drop)]
pub struct Wires<'a> {
    netlist: &'a Netlist,
    first: Vec<Option<Driver>>,
}

impl<'a> Wires<'a> {
    pub fn of(alloc: Global, netlist: &'a Netlist) -> Result<Wires<'a>, AllocError>
        ensures netlist { IfOk result (λ wires. wires.netlist.now ≡ netlist.now) }
        ensures known { IfOk result (λ wires. KnowsDrivers wires) }
    {
        let first = netlist.first_drivers(alloc)?;
        Ok(Wires { netlist, first })
    }

    // What some bits say: the runs of what drives them, from the highest down.
    pub fn bits_value(&self, alloc: Global, bits: &[u32]) -> Result<Expr, AllocError>
        requires known { KnowsDrivers self.now }
        requires readable { IsReadable self.now.netlist.now bits.now }
        ensures { IfOk result (λ value. value ≡ bits_value self.now.netlist.now bits.now) }
    {
        let mut top = self.run_on(alloc, bits[0])?;
        let mut lower = Vec::new(alloc);
        for net in &bits[1..] {
            let next = self.run_on(alloc, *net)?;
            top = on_top(&mut lower, top, next)?;
        }
        in_braces(alloc, top, lower)
    }

    // The bit on a net, as a run of one.
    fn run_on(&self, alloc: Global, net: u32) -> Result<Run, AllocError>
        requires known { KnowsDrivers self.now }
        requires within { net < self.now.netlist.now.nets }
        requires driven { is_undriven self.now.netlist.now net ≡ false }
        ensures { IfOk result (λ run. (as_bit run ≡ bit_on self.now.netlist.now net) × (run.low ≡ run.high)) }
    {
        match self.first[net as usize] {
            Some(driver) => run_of(alloc, self.netlist, driver),
            None => unreachable!(),
        }
    }
}

// Bits of one name in a row, from a high one down to a low one.
#[derive(Drop)]
struct Run {
    name: Name,
    width: u32,
    high: u32,
    low: u32,
}

impl Run {
    // Whether a run of one bit goes on with this run.
    fn goes_on(&self, next: &Run) -> bool
        ensures { result ≡ goes_on (as_run self.now) (as_bit next.now) }
    {
        self.name.as_str() == next.name.as_str() && u64::from(self.high) + 1 == u64::from(next.high)
    }

    fn into_expr(self) -> Expr
        ensures { result ≡ run_expr (as_run self) }
    {
        if u64::from(self.high) + 1 == u64::from(self.low) + u64::from(self.width) {
            Expr::Whole(self.name)
        } else if self.high == self.low {
            Expr::Bit(self.name, u128::from(self.low))
        } else {
            Expr::Part(self.name, u128::from(self.high), u128::from(self.low))
        }
    }
}

// The bit that a driver is.
fn run_of(alloc: Global, netlist: &Netlist, driver: Driver) -> Result<Run, AllocError>
    requires { IsDriver netlist.now driver }
    ensures { IfOk result (λ run. (as_bit run ≡ bit_of netlist.now driver) × (run.low ≡ run.high)) }
{
    match driver {
        Driver::Part { part, output, bit } => {
            let used = &netlist.parts.as_slice()[part as usize];
            Ok(Run {
                name: output_wire(alloc, part as usize, output as usize)?,
                width: used.cell.output_width(output),
                high: bit,
                low: bit,
            })
        }
        Driver::Pin { pin, bit } => {
            let used = &netlist.pins.as_slice()[pin as usize];
            Ok(Run {
                name: input_name(alloc, used)?,
                width: used.bits.len() as u32,
                high: bit,
                low: bit,
            })
        }
        Driver::Clock { .. } => Ok(Run {
            name: clock_name(alloc)?,
            width: 1,
            high: 0,
            low: 0,
        }),
    }
}

// The highest of some runs once a bit, a run of one, is on top of them.
fn on_top(lower: &mut Vec<Run>, mut top: Run, next: Run) -> Result<Run, AllocError>
    requires { next.low ≡ next.high }
    ensures { IfOk result (λ run. stack run lower.new.items ≡ on_top (stack top lower.old.items) (as_bit next)) }
{
    if top.goes_on(&next) {
        top.high = next.high;
        return Ok(top);
    }
    lower.push(top)?;
    Ok(next)
}

// Two or more runs stand in braces.
fn in_braces(alloc: Global, top: Run, mut lower: Vec<Run>) -> Result<Expr, AllocError>
    ensures { IfOk result (λ value. value ≡ in_braces (map run_expr (stack top lower.items))) }
{
    let first = top.into_expr();
    match lower.pop() {
        None => Ok(first),
        Some(second) => {
            let first = Boxed::new(alloc, first)?;
            let second = Boxed::new(alloc, second.into_expr())?;
            let more = from_the_last(alloc, lower)?;
            Ok(Expr::Join(first, second, more))
        }
    }
}

fn from_the_last(alloc: Global, mut runs: Vec<Run>) -> Result<Items<Expr>, AllocError>
    ensures { IfOk result (λ found. found ≡ map run_expr (map as_run (reverse runs.items))) }
{
    runs.reverse();
    let mut found = Items::new(alloc);
    for run in runs {
        found.push(run.into_expr())?;
    }
    Ok(found)
}
