//! The lines of inputs that are refused and of netlists that are not accepted.

ghost use Rattle.std.specs.Prelude.{◌≤◌, ◌++◌, codes};
ghost use Rattle.lg_io.specs.Sink.{Wrote};
ghost use Rattle.lg_run.specs.Lines.{refusal_text, unmet_text};

use crate::line::{put, put_about, put_all, put_name, put_number};
use crate::stop::{Refusal, Unmet};
use itoa::Buffer;
use lg_io::{Sink, SinkFault};

/// Writes the line of an input that is refused.
pub fn put_input<E: Sink>(err: &mut E, file: &str, refusal: &Refusal) -> Result<(), SinkFault>
    ensures { Wrote result (E.seen err.old) (E.seen err.new)
        (codes "lg: input: " ++ file.now ++ codes ": " ++ refusal_text refusal.now ++ codes "\n") }
{
    put_about(err, "lg: input: ", file, ": ")?;
    put_reason(err, refusal)?;
    put(err, "\n")
}

// Writes why an input is refused.
fn put_reason<E: Sink>(err: &mut E, refusal: &Refusal) -> Result<(), SinkFault>
    ensures wrote { Wrote result (E.seen err.old) (E.seen err.new) (refusal_text refusal.now) }
    ensures never_falls { (E.seen err.old).faults ≤ (E.seen err.new).faults }
{
    match refusal {
        Refusal::Missing => put(err, "Missing"),
        Refusal::TooLong => put(err, "TooLong"),
        Refusal::TooDeep => put(err, "TooDeep"),
        Refusal::NotProject => put(err, "NotProject"),
        Refusal::NotBuilt => put(err, "NotBuilt"),
        Refusal::NotSubset => put(err, "NotSubset"),
        Refusal::NotValid { rule } => put_number(err, "NotValid ", *rule),
        Refusal::Cyclic { wire } => put_name(err, "Cyclic ", wire.as_str()),
        Refusal::NotVector { line } => put_number(err, "NotVector ", *line),
        Refusal::NoPin { name } => put_name(err, "NoPin ", name.as_str()),
        Refusal::PinWidth { name } => put_name(err, "PinWidth ", name.as_str()),
        Refusal::PinClash { name } => put_name(err, "PinClash ", name.as_str()),
        Refusal::TooManyRows => put(err, "TooManyRows"),
        Refusal::MissingPin { name } => put_name(err, "MissingPin ", name.as_str()),
        Refusal::Undefined { row } => put_number(err, "Undefined ", *row),
    }
}

/// Writes the line of a netlist that is not accepted.
pub fn put_unmet<E: Sink>(err: &mut E, condition: &Unmet) -> Result<(), SinkFault>
    ensures { Wrote result (E.seen err.old) (E.seen err.new)
        (codes "lg: not accepted: " ++ unmet_text condition.now ++ codes "\n") }
{
    const START: &str = "lg: not accepted: ";
    match condition {
        Unmet::ManyDrivers { net, first, second } => {
            let mut digits = Buffer::new();
            let net = digits.format(*net);
            let (first, second) = (first.as_str(), second.as_str());
            put_all(
                err,
                &[START, "ManyDrivers ", net, " ", first, " ", second, "\n"],
            )
        }
        Unmet::Undriven { part, port } => {
            put_all(
                err,
                &[START, "Undriven ", part.as_str(), " ", port.as_str(), "\n"],
            )
        }
        Unmet::Cycle { part } => put_all(err, &[START, "Cycle ", part.as_str(), "\n"]),
    }
}
