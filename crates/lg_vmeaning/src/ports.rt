//! Ports with their widths.

ghost use Rattle.std.specs.Prelude.{◌≡◌, ◌<◌, ◌^◌, ◌↔◌, true, map, IfOk, IsTrue};
ghost use Rattle.lg_vrules.specs.Things.{range_width, port_thing};
ghost use Rattle.lg_vrules.specs.Rules.{are_narrow};
ghost use Rattle.lg_vmeaning.specs.Ports.{is_going, port_line, port_lines};
ghost use Rattle.lg_vmeaning.specs.Solution.{AreNumbers};

use lg_text::Text;
use lg_vrules::{Sort, sort_of_port};
use lg_vtree::{Direction, Memory, Module, Port};
use sqlite_items::Items;
use std::alloc::{AllocError, Global};

/// An input but the clock, or an output: its name, and how many bits it has.
#[derive(Debug, Drop)]
pub struct PortLine {
    pub name: Text,
    pub width: u32,
}

impl PortLine {
    // Whether the port can take this number.
    fn holds(&self, number: u64) -> bool
        ensures { IsTrue result ↔ (number < 2 ^ self.now.width) }
    {
        self.width >= 64 || number < 1 << self.width
    }
}

/// Whether there is one number for each of these ports, which can take it.
pub fn are_numbers(lines: &[PortLine], numbers: &[u64]) -> bool
    ensures { IsTrue result ↔ AreNumbers (map (λ line. (line.name, line.width)) lines.now) numbers.now }
{
    if lines.len() != numbers.len() {
        return false;
    }
    for (at, line) in lines.iter().enumerate() {
        if !line.holds(numbers[at]) {
            return false;
        }
    }
    true
}

/// The ports that go one way, in order, without the clock.
pub fn port_lines(
    alloc: Global,
    module: &Module,
    direction: Direction,
) -> Result<Items<PortLine>, Memory>
    requires { are_narrow «module».now ≡ true }
    ensures { IfOk result (λ lines. lines ≡ port_lines (is_going direction) «module».now) }
{
    let mut lines = Items::new(alloc);
    for port in module.ports.as_slice() {
        if is_going(direction, sort_of_port(port)) {
            lines.push(line(alloc, port)?)?;
        }
    }
    Ok(lines)
}

fn is_going(direction: Direction, sort: Sort) -> bool
    ensures { result ≡ is_going direction sort }
{
    match direction {
        Direction::Input => matches!(sort, Sort::Input),
        Direction::Output => matches!(sort, Sort::Output),
    }
}

fn line(alloc: Global, port: &Port) -> Result<PortLine, AllocError>
    requires { range_width port.now.range < 2 ^ 32 }
    ensures { IfOk result (λ line. line ≡ port_line (port.now.name, range_width port.now.range)) }
{
    Ok(PortLine {
        name: Text::copy_of(alloc, port.name.as_str())?,
        width: port.range.high().map_or(1, |high| high as u32 + 1),
    })
}
