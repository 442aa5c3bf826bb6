//! The names of the module, its ports and its wires.

ghost use Rattle.std.specs.Prelude.{◌≡◌, ◌++◌, IfOk, codes};
ghost use Rattle.lg_names.specs.Names.{name_of_label};
ghost use Rattle.lg_export.specs.Layout.{input_name, output_name, input_wire, output_wire};
ghost use Rattle.lg_export.specs.Readable.{IsNamed};

use lg_names::name_of_label;
use lg_netlist::PinUse;
use lg_text::Text;
use lg_vtree::Name;
use std::alloc::{AllocError, Global};

// `c_NAME`
pub fn module_name(alloc: Global, circuit: &str) -> Result<Name, AllocError>
    ensures { IfOk result (λ name. name ≡ codes "c_" ++ name_of_label circuit.now) }
{
    let name = name_of_label(alloc, circuit)?;
    Ok(Name::new(prefixed(alloc, "c_", name.as_str())?))
}

// `i_NAME`
pub fn input_name(alloc: Global, pin: &PinUse) -> Result<Name, AllocError>
    requires { IsNamed pin.now }
    ensures { IfOk result (λ name. name ≡ input_name pin.now) }
{
    Ok(Name::new(prefixed(alloc, "i_", pin.name.as_str())?))
}

// `o_NAME`
pub fn output_name(alloc: Global, pin: &PinUse) -> Result<Name, AllocError>
    requires { IsNamed pin.now }
    ensures { IfOk result (λ name. name ≡ output_name pin.now) }
{
    Ok(Name::new(prefixed(alloc, "o_", pin.name.as_str())?))
}

// `xP_I`
pub fn input_wire(alloc: Global, part: usize, input: usize) -> Result<Name, AllocError>
    ensures { IfOk result (λ name. name ≡ input_wire part input) }
{
    Ok(Name::new(Text::from_string(format!(in alloc; "x{part}_{input}")?)))
}

// `wP_O`
pub fn output_wire(alloc: Global, part: usize, output: usize) -> Result<Name, AllocError>
    ensures { IfOk result (λ name. name ≡ output_wire part output) }
{
    Ok(Name::new(Text::from_string(format!(in alloc; "w{part}_{output}")?)))
}

// `clk`
pub fn clock_name(alloc: Global) -> Result<Name, AllocError>
    ensures { IfOk result (λ name. name ≡ codes "clk") }
{
    Ok(Name::new(Text::copy_of(alloc, "clk")?))
}

fn prefixed(alloc: Global, prefix: &str, name: &str) -> Result<Text, AllocError>
    ensures { IfOk result (λ text. text ≡ prefix.now ++ name.now) }
{
    let mut text = Text::copy_of(alloc, prefix)?;
    text.push_str(name)?;
    Ok(text)
}
