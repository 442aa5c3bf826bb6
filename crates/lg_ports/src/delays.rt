//! How many instants a part takes.

ghost use Rattle.std.specs.Prelude.{◌≡◌, ◌≤◌, IfSome};
ghost use Rattle.lg_ports.specs.Delays.{delay_of, usual_delay, product};
ghost use Rattle.lg_ports.specs.Given.{component, seen_given};
ghost use Rattle.lg_ports.specs.Judged.{AllFit};

use crate::given::Given;
use lg_attrs::Attrs;
use lg_kinds::rows::Delay;
use lg_kinds::{Kind, PortTable, entry};

// The longest delay that a part has.
const LONGEST: u32 = 255;

/// How many instants a part of a kind takes with these attributes; `None` exactly where the kind is no part.
///
/// The delay that `table` gives the kind goes before the one of the table of kinds. It is 1 to 255 where the attributes
/// are in their ranges, as they are where `ports` answers.
pub fn delay(kind: Kind, attrs: &Attrs, table: &PortTable) -> Option<u32>
    ensures delay { result ≡ delay_of (component kind attrs.now.list table.now.records) }
    ensures small { IfSome result (λ instants. instants ≤ 255) }
    ensures some { AllFit (component kind attrs.now.list table.now.records) → IfSome result (λ instants. 1 ≤ instants) }
{
    let usual = usual_delay(&Given { kind, attrs, table })?;
    match table.delay_of(kind) {
        Some(instants) => Some(u32::from(instants.get())),
        None => Some(usual),
    }
}

// The delay that the table of kinds gives.
fn usual_delay(given: &Given) -> Option<u32>
    ensures delay { result ≡ usual_delay (seen_given given.now) }
    ensures small { IfSome result (λ instants. instants ≤ 255) }
    ensures some { AllFit (seen_given given.now) → IfSome result (λ instants. 1 ≤ instants) }
{
    match entry(given.kind).delay {
        Delay::None => None,
        Delay::Instants(instants) => Some(u32::from(instants)),
        Delay::Sum => Some(given.number("width") + 2),
        Delay::Product => Some(product(given.number("width"))),
    }
}

fn product(width: u32) -> u32
    requires { width ≤ 99 }
    ensures product { result ≡ product width }
    ensures small { result ≤ 255 }
    ensures some { 1 ≤ width → 1 ≤ result }
{
    (width * (width + 2)).min(LONGEST)
}
