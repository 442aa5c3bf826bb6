//! Rows as text.

ghost use Rattle.std.specs.Prelude.{◌≡◌, ◌+◌, ◌++◌, All, IfOk, OnOk};
ghost use Rattle.lg_value.specs.Bit.{digit_of};
ghost use Rattle.lg_value.specs.Word.{IsWidth};
ghost use Rattle.lg_vrows.specs.Steps.{IsMarked, IsPrinted, lines};
ghost use Rattle.lg_vrows.specs.Text.{table_text, heading_text, row_text, binary};

use crate::pins::plain;
use itoa::Buffer;
use lg_value::{Bit, Word};
use lg_vmeaning::PortLine;
use sqlite_items::Items;
use std::alloc::{AllocError, Global};

/// The text of outputs row by row: a heading with the names of the ports, and a line for each row.
pub fn print(alloc: Global, ports: &[PortLine], outs: &[Items<u64>]) -> Result<Vec<u8>, AllocError>
    requires { All IsPrinted ports.now }
    ensures { IfOk result (λ text. text.items ≡ table_text (lines ports.now) outs.now) }
{
    let mut text = Vec::new(alloc);
    put_heading(&mut text, ports)?;
    for (at, out) in outs.iter().enumerate() {
        put_row(&mut text, at as u64 + 1, ports, out.as_slice())?;
    }
    Ok(text)
}

fn put_heading(text: &mut Vec<u8>, ports: &[PortLine]) -> Result<(), AllocError>
    requires { All IsPrinted ports.now }
    ensures { OnOk result (text.new.items ≡ text.old.items ++ heading_text (lines ports.now)) }
{
    text.extend_from_slice(b"row")?;
    for port in ports {
        text.push(b'\t')?;
        text.extend_from_slice(plain(port.name.as_str()).as_bytes())?;
    }
    text.push(b'\n')?;
    Ok(())
}

fn put_row(
    text: &mut Vec<u8>,
    number: u64,
    ports: &[PortLine],
    out: &[u64],
) -> Result<(), AllocError>
    requires { All IsPrinted ports.now }
    ensures { OnOk result (text.new.items ≡ text.old.items ++ row_text (lines ports.now) (number, out.now)) }
{
    text.extend_from_slice(Buffer::new().format(number).as_bytes())?;
    for (port, value) in ports.iter().zip(out) {
        text.push(b'\t')?;
        put_binary(text, port.width, *value)?;
    }
    text.push(b'\n')?;
    Ok(())
}

// A number in so many binary digits, the highest first.
fn put_binary(text: &mut Vec<u8>, width: u32, number: u64) -> Result<(), AllocError>
    requires { IsWidth width }
    ensures { OnOk result (text.new.items ≡ text.old.items ++ binary width number) }
{
    let word = Word::from_number(width, number);
    for index in 0..width {
        text.push(digit(word.bit(width - 1 - index)))?;
    }
    Ok(())
}

fn digit(bit: Bit) -> u8
    ensures { result ≡ 48 + digit_of bit }
{
    if bit == Bit::One { b'1' } else { b'0' }
}
