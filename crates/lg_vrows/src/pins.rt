//! The inputs of a module as pins.

ghost use Rattle.std.specs.Prelude.{◌≡◌, map, All, IfOk};
ghost use Rattle.lg_vrows.specs.Rows.{plain, input_pin};
ghost use Rattle.lg_vrows.specs.Steps.{IsMarked, lines};

use lg_text::Text;
use lg_vectors::PinShape;
use lg_vmeaning::PortLine;
use sqlite_items::Items;
use std::alloc::{AllocError, Global};

/// The name of a port without its `i_` or `o_`.
pub fn plain(name: &str) -> &str
    requires { IsMarked name.now }
    ensures { result.now ≡ plain name.now }
{
    &name[2..]
}

/// Inputs as the pins that columns are bound to.
pub fn input_pins(alloc: Global, inputs: &[PortLine]) -> Result<Items<PinShape>, AllocError>
    requires { All (λ line. IsMarked line.name) inputs.now }
    ensures { IfOk result (λ pins. pins ≡ map input_pin (lines inputs.now)) }
{
    let mut pins = Items::new(alloc);
    for line in inputs {
        pins.push(PinShape {
            name: Text::copy_of(alloc, plain(line.name.as_str()))?,
            width: line.width,
            input: true,
        })?;
    }
    Ok(pins)
}
