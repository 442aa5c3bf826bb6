//! Small netlists for tests.

ghost use Rattle.std.specs.Prelude.{◌≡◌, ◌<◌, ◌≤◌, ◌^◌, ℕ, List, length, map, All, IfOk, IsTrue};
ghost use Rattle.std.specs.List.{IsDistinct};
ghost use Rattle.std.specs.Str.{bytes_eq};
ghost use Rattle.lg_names.specs.Names.{is_pin_name};
ghost use Rattle.lg_netlist.specs.Valid.{TakesInputs, AreNets, IsPort, IsFittingPart, IsFittingPin};

use lg_names::pin_names;
use lg_netlist::{Cell, Netlist, PartUse, PinUse};
use lg_text::Text;
use sqlite_items::Items;
use std::alloc::{AllocError, Global};
use std::process::Abort;

/// Whether each pin is an input, its label, and its nets from bit 0 up.
pub type Pins = &'static [(bool, &'static str, &'static [u32])];

/// A gate: its kind, the nets of its inputs, and that of its output.
pub type Gate = (Cell, &'static [Option<u32>], Option<u32>);

const NETS: u32 = 8;

/// A netlist of eight nets, called `main`, with these pins, gates and clock. Pins stand at `p0` and so on, gates are called
/// `g0` and so on, and the clock `c`.
pub fn netlist(
    rt: &impl Abort,
    alloc: Global,
    pins: Pins,
    gates: &'static [Gate],
    clock: Option<u32>,
) -> Result<Netlist, AllocError> {
    Ok(Netlist {
        circuit: Text::copy_of(alloc, "main")?,
        parts: gates_of(rt, alloc, gates)?,
        pins: pins_on(rt, alloc, pins)?,
        clocks: clocks_on(rt, alloc, clock)?,
        nets: NETS,
        clock_pin: None,
    })
}

fn clocks_on(
    rt: &impl Abort,
    alloc: Global,
    clock: Option<u32>,
) -> Result<Items<(u32, Text)>, AllocError>
    ensures few { IfOk result (λ clocks. length clocks < 2 ^ 32) }
    ensures fit { IfOk result (λ clocks. All (λ (c : ℕ × List ℕ). c.0 < 8) clocks) }
{
    let mut clocks = Items::new(alloc);
    if let Some(net) = clock {
        assert!(rt; net < NETS);
        clocks.push((net, Text::copy_of(alloc, "c")?))?;
    }
    Ok(clocks)
}

fn gates_of(
    rt: &impl Abort,
    alloc: Global,
    gates: &'static [Gate],
) -> Result<Items<PartUse>, AllocError>
    ensures few { IfOk result (λ parts. length parts < 2 ^ 32) }
    ensures fit { IfOk result (λ parts. All (IsFittingPart 8) parts) }
{
    assert!(rt; gates.len() < 100);
    let mut parts = Items::new(alloc);
    for gate in gates {
        let name = Text::from_string(format!(in alloc; "g{}", parts.len())?);
        parts.push(gate_of(rt, alloc, name, *gate)?)?;
    }
    Ok(parts)
}

fn gate_of(rt: &impl Abort, alloc: Global, name: Text, gate: Gate) -> Result<PartUse, AllocError>
    ensures { IfOk result (λ p. IsFittingPart 8 p) }
{
    let (cell, inputs, output) = gate;
    assert!(rt; takes(cell, inputs.len()));
    Ok(PartUse {
        name,
        cell,
        inputs: ports(rt, alloc, inputs)?,
        outputs: ports(rt, alloc, &[output])?,
    })
}

fn takes(cell: Cell, inputs: usize) -> bool
    ensures { IsTrue result → TakesInputs cell inputs }
{
    match cell {
        Cell::Not => inputs == 1,
        Cell::And | Cell::Or => 2 <= inputs && inputs <= 64,
    }
}

fn ports(
    rt: &impl Abort,
    alloc: Global,
    nets: &[Option<u32>],
) -> Result<Items<Items<u32>>, AllocError>
    ensures one_each { IfOk result (λ ports. length ports ≡ length nets.now) }
    ensures fit { IfOk result (λ ports. All (IsPort 8) ports) }
    ensures narrow { IfOk result (λ ports. All (λ bits. length bits ≤ 1) ports) }
{
    let mut ports = Items::new(alloc);
    for net in nets {
        ports.push(port(rt, alloc, *net)?)?;
    }
    Ok(ports)
}

fn port(rt: &impl Abort, alloc: Global, net: Option<u32>) -> Result<Items<u32>, AllocError>
    ensures fits { IfOk result (λ bits. IsPort 8 bits) }
    ensures narrow { IfOk result (λ bits. length bits ≤ 1) }
{
    match net {
        Some(net) => {
            assert!(rt; net < NETS);
            Items::from_slice(alloc, &[net])
        }
        None => Ok(Items::new(alloc)),
    }
}

fn pins_on(rt: &impl Abort, alloc: Global, pins: Pins) -> Result<Items<PinUse>, AllocError>
    ensures few { IfOk result (λ pins. length pins < 2 ^ 32) }
    ensures fit { IfOk result (λ pins. All (IsFittingPin 8) pins) }
    ensures differ { IfOk result (λ pins. IsDistinct bytes_eq (map (λ p. p.name) pins)) }
{
    let mut labels = Vec::new(alloc);
    for (_, label, _) in pins {
        labels.push(Text::copy_of(alloc, label)?)?;
    }
    let names = pin_names(alloc, labels.as_slice())?;
    let mut found = Items::new(alloc);
    for name in names.as_slice() {
        found.push(pin(rt, alloc, name, pins, found.len())?)?;
    }
    assert!(rt; found.len() < 100);
    Ok(found)
}

fn pin(
    rt: &impl Abort,
    alloc: Global,
    name: &Text,
    pins: Pins,
    at: usize,
) -> Result<PinUse, AllocError>
    requires { IsTrue (is_pin_name name.now) }
    ensures fit { IfOk result (λ pin. IsFittingPin 8 pin) }
    ensures name { IfOk result (λ pin. pin.name ≡ name.now) }
{
    assert!(rt; at < pins.len());
    let (input, _, bits) = pins[at];
    assert!(rt; 1 <= bits.len() && bits.len() <= 64);
    Ok(PinUse {
        name: Text::copy_of(alloc, name.as_str())?,
        place: Text::from_string(format!(in alloc; "p{at}")?),
        input,
        bits: nets_of(rt, alloc, bits)?,
    })
}

fn nets_of(rt: &impl Abort, alloc: Global, bits: &[u32]) -> Result<Items<u32>, AllocError>
    ensures same { IfOk result (λ nets. length nets ≡ length bits.now) }
    ensures nets { IfOk result (AreNets 8) }
{
    assert!(rt; bits.iter().all(|net| *net < NETS));
    Items::from_slice(alloc, bits)
}
