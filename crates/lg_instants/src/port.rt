//! Ports of parts, and the nets that they are attached to.

ghost use Rattle.std.specs.Prelude.{◌≡◌};

use std::marker::Model;

/// The net of each of some bits, bit 0 first. In a contract it is their list.
#[derive(Debug, Drop)]
pub struct Nets {
    nets: Vec<u32>,
}

impl Model for Nets {
    ghost use Rattle.std.specs.Prelude.{ℕ, List};

    ghost Value = { List ℕ };

    ghost view = { λ n. n.nets.items };
}

impl Nets {
    /// These nets.
    pub fn new(nets: Vec<u32>) -> Nets
        ensures { result ≡ nets.items }
    {
        Nets { nets }
    }

    /// The nets in their order.
    pub fn nets(&self) -> &[u32]
        ensures { result.now ≡ self.now }
    {
        self.nets.as_slice()
    }
}

/// A port: the net of each of its bits, or no net where nothing is attached; and how many bits it
/// has.
#[derive(Debug, Drop)]
pub struct Port {
    nets: Nets,
    width: u32,
}

impl Model for Port {
    ghost use Rattle.lg_timing.specs.Circuit.{Port};

    ghost Value = { Port };

    ghost view = { λ p. record { nets = p.nets; width = p.width } };
}

impl Port {
    /// A port of so many bits on these nets.
    pub fn new(nets: Nets, width: u32) -> Port
        ensures { result ≡ record { nets = nets; width = width } }
    {
        Port { nets, width }
    }

    /// The net of each of its bits, or no net.
    pub fn nets(&self) -> &[u32]
        ensures { result.now ≡ self.now.nets }
    {
        self.nets.nets()
    }

    /// How many bits it has.
    pub fn width(&self) -> u32
        ensures { result ≡ self.now.width }
    {
        self.width
    }
}
