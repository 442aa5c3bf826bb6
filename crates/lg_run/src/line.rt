//! Texts of a line, written one after another.

ghost use Rattle.std.specs.Prelude.{◌≤◌, ◌++◌};
ghost use Rattle.std.specs.Fmt.{decimal};
ghost use Rattle.std.specs.List.{flat_map};
ghost use Rattle.lg_io.specs.Sink.{Wrote};

use itoa::Buffer;
use lg_io::{Sink, SinkFault, write_all};

/// Writes what stands before a file's name, the name, and what stands behind it.
pub fn put_about<E: Sink>(
    err: &mut E,
    before: &str,
    file: &str,
    after: &str,
) -> Result<(), SinkFault>
    ensures wrote { Wrote result (E.seen err.old) (E.seen err.new) (before.now ++ file.now ++ after.now) }
    ensures never_falls { (E.seen err.old).faults ≤ (E.seen err.new).faults }
{
    put(err, before)?;
    put(err, file)?;
    put(err, after)
}

/// Writes these texts, one after another.
pub fn put_all<E: Sink>(err: &mut E, texts: &[&str]) -> Result<(), SinkFault>
    ensures { Wrote result (E.seen err.old) (E.seen err.new) (flat_map (λ text. text.now) texts.now) }
{
    for text in texts {
        put(err, text)?;
    }
    Ok(())
}

/// Writes a text.
pub fn put<E: Sink>(err: &mut E, text: &str) -> Result<(), SinkFault>
    ensures wrote { Wrote result (E.seen err.old) (E.seen err.new) text.now }
    ensures never_falls { (E.seen err.old).faults ≤ (E.seen err.new).faults }
{
    write_all(err, text.as_bytes())
}

/// Writes a word and a number.
pub fn put_number<E: Sink>(err: &mut E, word: &str, number: u32) -> Result<(), SinkFault>
    ensures wrote { Wrote result (E.seen err.old) (E.seen err.new) (word.now ++ decimal number) }
    ensures never_falls { (E.seen err.old).faults ≤ (E.seen err.new).faults }
{
    let mut digits = Buffer::new();
    let number = digits.format(number);
    put_name(err, word, number)
}

/// Writes a word and a name.
pub fn put_name<E: Sink>(err: &mut E, word: &str, name: &str) -> Result<(), SinkFault>
    ensures wrote { Wrote result (E.seen err.old) (E.seen err.new) (word.now ++ name.now) }
    ensures never_falls { (E.seen err.old).faults ≤ (E.seen err.new).faults }
{
    put(err, word)?;
    put(err, name)
}
