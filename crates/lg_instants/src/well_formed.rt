//! The conditions that a circuit has to meet.

ghost use Rattle.std.specs.Prelude.{◌≡◌, ◌↔◌, List, ℕ, IsTrue, map, length};
ghost use Rattle.std.specs.List.{list_all};
ghost use Rattle.lg_timing.specs.Circuit.{Part};
ghost use Rattle.lg_instants.specs.Plain.{IsWellFormed, circuit_of, is_width, is_port};

use crate::{Behaviour, Circuit, Nets, Port};

fn is_width(width: usize) -> bool
    ensures { result ≡ is_width width }
{
    1 <= width && width <= 64
}

fn is_port(port: &Port) -> bool
    ensures { result ≡ is_port port.now }
{
    let places = port.nets().len();
    let width = port.width() as usize;
    is_width(width) && (places == 0 || places == width)
}

fn are_ports(ports: &[Port]) -> bool
    ensures { result ≡ list_all is_port ports.now }
{
    for port in ports {
        if !is_port(port) {
            return false;
        }
    }
    true
}

fn have_input_ports<P: Behaviour>(parts: &[P]) -> bool
    ensures { result ≡ list_all (λ (p : Part). list_all is_port p.inputs) (map P.meaning parts.now) }
{
    for part in parts {
        if !are_ports(part.inputs()) {
            return false;
        }
    }
    true
}

fn have_output_ports<P: Behaviour>(parts: &[P]) -> bool
    ensures { result ≡ list_all (λ (p : Part). list_all is_port p.outputs) (map P.meaning parts.now) }
{
    for part in parts {
        if !are_ports(part.outputs()) {
            return false;
        }
    }
    true
}

fn are_pins(pins: &[Nets]) -> bool
    ensures { result ≡ list_all (λ (nets : List ℕ). is_width (length nets)) pins.now }
{
    for nets in pins {
        if !is_width(nets.nets().len()) {
            return false;
        }
    }
    true
}

/// Whether a circuit is well formed.
pub fn is_well_formed<P: Behaviour>(circuit: &Circuit<P>) -> bool
    ensures { IsTrue result ↔ IsWellFormed (circuit_of P.meaning circuit.now) }
{
    have_input_ports(&circuit.parts)
        && have_output_ports(&circuit.parts)
        && are_pins(&circuit.outputs)
}
