//! The kinds of components and their names.

ghost use Rattle.std.specs.Prelude.{List, ℕ, ◌≡◌, ◌≢◌, find, unwrap_or, IfOk, IfErr, option_map, MatchOption};
ghost use Rattle.lg_kinds.specs.declared.kind.Kind.{Kind as KindSelf};
ghost use Rattle.std.specs.List.{list_any};
ghost use Rattle.std.specs.Str.{bytes_eq};
ghost use denote.Bor.{Bor};
ghost use Rattle.lg_kinds.specs.Kinds.{is_accepted, library_of, IsKind, IsOnly, RefusesKind};
ghost use Rattle.lg_kinds.specs.PortTable.{is_same};
ghost use Rattle.lg_kinds.specs.Table.{name_of};

use crate::fault::PartFault;
use crate::table::entry;
use lg_attrs::is_among;
use lg_text::Text;
use std::alloc::Global;

/// A kind of component. `kind_name` gives its name in the drawing tool.
#[derive(Clone, Copy, Debug, PartialEq, Eq)]
pub enum Kind {
    Pin,
    Tunnel,
    Splitter,
    Clock,
    Constant,
    Power,
    Ground,
    PullResistor,
    BitExtender,
    NotGate,
    Buffer,
    AndGate,
    OrGate,
    NandGate,
    NorGate,
    XorGate,
    XnorGate,
    OddParity,
    EvenParity,
    ControlledBuffer,
    ControlledInverter,
    Multiplexer,
    Demultiplexer,
    Decoder,
    PriorityEncoder,
    BitSelector,
    Adder,
    Subtractor,
    Multiplier,
    Divider,
    Negator,
    Comparator,
    Shifter,
    BitAdder,
    DFlipFlop,
    TFlipFlop,
    JkFlipFlop,
    SrFlipFlop,
    Register,
    Counter,
    ShiftRegister,
    Rom,
    Ram,
    Probe,
    Led,
    Text,
    HexDisplay,
    SegmentDisplay,
}

// Every kind.
const KINDS: [Kind; 48] = [
    Kind::Pin,
    Kind::Tunnel,
    Kind::Splitter,
    Kind::Clock,
    Kind::Constant,
    Kind::Power,
    Kind::Ground,
    Kind::PullResistor,
    Kind::BitExtender,
    Kind::NotGate,
    Kind::Buffer,
    Kind::AndGate,
    Kind::OrGate,
    Kind::NandGate,
    Kind::NorGate,
    Kind::XorGate,
    Kind::XnorGate,
    Kind::OddParity,
    Kind::EvenParity,
    Kind::ControlledBuffer,
    Kind::ControlledInverter,
    Kind::Multiplexer,
    Kind::Demultiplexer,
    Kind::Decoder,
    Kind::PriorityEncoder,
    Kind::BitSelector,
    Kind::Adder,
    Kind::Subtractor,
    Kind::Multiplier,
    Kind::Divider,
    Kind::Negator,
    Kind::Comparator,
    Kind::Shifter,
    Kind::BitAdder,
    Kind::DFlipFlop,
    Kind::TFlipFlop,
    Kind::JkFlipFlop,
    Kind::SrFlipFlop,
    Kind::Register,
    Kind::Counter,
    Kind::ShiftRegister,
    Kind::Rom,
    Kind::Ram,
    Kind::Probe,
    Kind::Led,
    Kind::Text,
    Kind::HexDisplay,
    Kind::SegmentDisplay,
];

/// The kind that has a name in a library with this description; `None` stands for a library without one.
///
/// Which of the accepted libraries it is does not matter. `OutsideLibrary` names the description where it is not
/// accepted, and is empty where there is none; else `UnknownKind` names what no kind is called.
pub fn kind_of(alloc: Global, desc: Option<&str>, name: &str) -> Result<Kind, PartFault>
    ensures found { IfOk result (λ kind. IsKind (library_of desc.entry) name.now kind) }
    ensures refused { IfErr result (λ fault. RefusesKind (library_of desc.entry) name.now fault) }
{
    let library = desc.unwrap_or("");
    if !is_accepted(library) {
        let lib = Text::copy_of(alloc, library)?;
        return Err(PartFault::OutsideLibrary { lib });
    }
    match find_kind(name) {
        Some(kind) => Ok(kind),
        None => {
            let name = Text::copy_of(alloc, name)?;
            Err(PartFault::UnknownKind { name })
        }
    }
}

fn is_accepted(library: &str) -> bool
    ensures { result ≡ is_accepted library.now }
{
    is_among(
        library,
        &[
            "#Wiring",
            "#Gates",
            "#Plexers",
            "#Arithmetic",
            "#Memory",
            "#I/O",
            "#Base",
        ],
    )
}

// The kind of this name, which is the only one.
pub fn find_kind(name: &str) -> Option<Kind>
    ensures { MatchOption result
        ((kind : KindSelf) → name_of kind ≢ name.now)
        (λ kind. IsOnly name.now kind) }
{
    kind_named(&KINDS, name)
}

// The first of some kinds that has this name.
fn kind_named(kinds: &[Kind], name: &str) -> Option<Kind>
    ensures { result ≡ find (λ kind. bytes_eq (name_of kind) name.now) kinds.now }
{
    for kind in kinds {
        if kind_name(*kind) == name {
            return Some(*kind);
        }
    }
    None
}

/// The kind's name in the drawing tool.
pub fn kind_name(kind: Kind) -> &'static str
    ensures { result.now ≡ name_of kind }
{
    entry(kind).name
}

// Whether two kinds are the same.
pub fn is_same(one: Kind, other: Kind) -> bool
    ensures { result ≡ is_same one other }
{
    kind_name(one) == kind_name(other)
}
