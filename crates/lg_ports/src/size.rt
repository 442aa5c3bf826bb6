//! How wide ports are.

ghost use Rattle.std.specs.Prelude.{◌≡◌, ◌≤◌, ◌*◌};
ghost use Rattle.lg_arith.specs.Count.{least_width, select_width};
ghost use Rattle.lg_ports.specs.Given.{seen_given};
ghost use Rattle.lg_ports.specs.Places.{size_of};

use crate::given::Given;
use lg_arith::least_width;
use lg_kinds::rows::Size;

// How many bits a port has; 0 for as many as there are.
pub fn size_of(given: &Given, size: Size) -> u32
    ensures { result ≡ size_of (seen_given given.now) size }
{
    match size {
        Size::Any => 0,
        Size::One => 1,
        Size::Width => given.number("width"),
        Size::InWidth => given.number("in_width"),
        Size::OutWidth => given.number("out_width"),
        Size::Incoming => given.number("incoming"),
        Size::Group => given.number("group"),
        Size::Select => given.number("select"),
        Size::AddrWidth => given.number("addrWidth"),
        Size::DataWidth => given.number("dataWidth"),
        Size::GroupSelect => select_width(given.number("group"), given.number("width")),
        Size::Distance => select_width(1, given.number("width")),
        Size::Total => total_width(given.number("inputs"), given.number("width")),
    }
}

// How many bits number the groups of so many bits, at least 1.
fn select_width(group: u32, width: u32) -> u32
    ensures { result ≡ select_width group width }
{
    least_width(width.saturating_sub(1) / group.max(1)).max(1)
}

// How many bits the greatest count of ones has.
fn total_width(inputs: u32, width: u32) -> u32
    requires inputs { inputs ≤ 99 }
    requires width { width ≤ 99 }
    ensures { result ≡ least_width (inputs * width) }
{
    least_width(inputs * width)
}
