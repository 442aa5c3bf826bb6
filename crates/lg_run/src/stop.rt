//! Why a run stops before its end, and the line that says so.

ghost use Rattle.std.specs.Prelude.{◌≡◌};
ghost use Rattle.lg_io.specs.Sink.{Said, Wrote};
ghost use Rattle.lg_run.specs.Lines.{status_of, line_of};
ghost use Rattle.lg_run.specs.Stops.{file_stop, circ_stop, early_stop, not_accepted_stop, module_stop, vector_stop, rows_stop};
ghost use Rattle.lg_run.specs.declared.stop.Stop.TheVariants as stop;

use crate::line::{put, put_about};
use crate::one_sheet::EarlyFault;
use crate::reason::{put_input, put_unmet};
use crate::status::Status;
use lg_circ::CircFault;
use lg_io::{FileFault, Sink, SinkFault};
use lg_netlist::NotAccepted;
use lg_text::Text;
use lg_vectors::VectorFault;
use lg_vrows::{ModuleFault, RowsFault};

/// Why an input is refused, with what is told of it.
#[derive(Debug, Drop)]
pub enum Refusal {
    /// Nothing is held under the name.
    Missing,
    /// It has more bytes than the verb reads.
    TooLong,
    /// Elements stand in one another too deep.
    TooDeep,
    /// It is the text of no project.
    NotProject,
    /// The project's circuit is not one that is built.
    NotBuilt,
    /// It is a text of no module of the subset.
    NotSubset,
    /// Its module breaks a rule: the least such, from 1 to 7.
    NotValid { rule: u32 },
    /// A wire or an output of its module depends on itself.
    Cyclic { wire: Text },
    /// The first line outside the form of vectors.
    NotVector { line: u32 },
    /// No pin has the name of a column.
    NoPin { name: Text },
    /// The pin of a column has another width.
    PinWidth { name: Text },
    /// Two columns have one name.
    PinClash { name: Text },
    /// There are more rows than are run.
    TooManyRows,
    /// A pin has no column.
    MissingPin { name: Text },
    /// The first row, from 1, with a bit that is not cared for.
    Undefined { row: u32 },
}

/// What a netlist lacks to be accepted, with the names of the places.
#[derive(Debug, Drop)]
pub enum Unmet {
    /// A net has two drivers.
    ManyDrivers { net: u32, first: Text, second: Text },
    /// Nothing drives what a port reads.
    Undriven { part: Text, port: Text },
    /// A chain of parts returns to its start.
    Cycle { part: Text },
}

/// Why a run stops before its end.
#[derive(Debug, Drop)]
pub enum Stop {
    /// The words are no command.
    Usage,
    /// An input is refused.
    Input(Refusal),
    /// The netlist is not accepted.
    NotAccepted(Unmet),
    /// A file could not be read.
    ReadFault,
    /// The output could not be written.
    WriteFault,
    /// There was no memory.
    Memory,
}

/// Why a verb stopped, and the file that the stop is about.
#[derive(Debug, Drop)]
pub struct Stopped<'a> {
    pub stop: Stop,
    pub file: &'a str,
}

impl From<FileFault> for Stop {
    ghost from_gives = { λ fault stop. stop ≡ file_stop fault };

    fn from(fault: FileFault) -> Stop {
        match fault {
            FileFault::Missing => Stop::Input(Refusal::Missing),
            FileFault::TooLong => Stop::Input(Refusal::TooLong),
            FileFault::Failed => Stop::ReadFault,
            FileFault::Memory => Stop::Memory,
        }
    }
}

impl From<CircFault> for Stop {
    ghost from_gives = { λ fault stop. stop ≡ circ_stop fault };

    fn from(fault: CircFault) -> Stop {
        match fault {
            CircFault::TooLong => Stop::Input(Refusal::TooLong),
            CircFault::TooDeep => Stop::Input(Refusal::TooDeep),
            CircFault::NotProject => Stop::Input(Refusal::NotProject),
            CircFault::Memory => Stop::Memory,
        }
    }
}

impl From<EarlyFault> for Stop {
    ghost from_gives = { λ fault stop. stop ≡ early_stop fault };

    fn from(fault: EarlyFault) -> Stop {
        match fault {
            EarlyFault::NotBuilt => Stop::Input(Refusal::NotBuilt),
            EarlyFault::Memory => Stop::Memory,
        }
    }
}

impl From<NotAccepted> for Stop {
    ghost from_gives = { λ fault stop. stop ≡ not_accepted_stop fault };

    fn from(fault: NotAccepted) -> Stop {
        match fault {
            NotAccepted::ManyDrivers { net, first, second } => {
                Stop::NotAccepted(Unmet::ManyDrivers { net, first, second })
            }
            NotAccepted::Undriven { part, port } => {
                Stop::NotAccepted(Unmet::Undriven { part, port })
            }
            NotAccepted::Cycle { part } => Stop::NotAccepted(Unmet::Cycle { part }),
            NotAccepted::Memory => Stop::Memory,
        }
    }
}

impl From<ModuleFault> for Stop {
    ghost from_gives = { λ fault stop. stop ≡ module_stop fault };

    fn from(fault: ModuleFault) -> Stop {
        match fault {
            ModuleFault::NotSubset => Stop::Input(Refusal::NotSubset),
            ModuleFault::NotValid { rule } => Stop::Input(Refusal::NotValid { rule }),
            ModuleFault::Cyclic { wire } => Stop::Input(Refusal::Cyclic { wire }),
            ModuleFault::Memory => Stop::Memory,
        }
    }
}

impl From<VectorFault> for Stop {
    ghost from_gives = { λ fault stop. stop ≡ vector_stop fault };

    fn from(fault: VectorFault) -> Stop {
        match fault {
            VectorFault::NotVector { line } => Stop::Input(Refusal::NotVector { line }),
            VectorFault::NoPin { name } => Stop::Input(Refusal::NoPin { name }),
            VectorFault::PinWidth { name } => Stop::Input(Refusal::PinWidth { name }),
            VectorFault::PinClash { name } => Stop::Input(Refusal::PinClash { name }),
            VectorFault::TooManyRows => Stop::Input(Refusal::TooManyRows),
            VectorFault::MissingPin { name } => Stop::Input(Refusal::MissingPin { name }),
            VectorFault::Memory => Stop::Memory,
        }
    }
}

impl From<RowsFault> for Stop {
    ghost from_gives = { λ fault stop. stop ≡ rows_stop fault };

    fn from(fault: RowsFault) -> Stop {
        match fault {
            RowsFault::Vector { fault } => Stop::from(fault),
            RowsFault::Undefined { row } => Stop::Input(Refusal::Undefined { row }),
            RowsFault::Memory => Stop::Memory,
        }
    }
}

impl From<lg_vprint::Memory> for Stop {
    ghost from_gives = { λ _ stopped. stopped ≡ stop.Memory };

    fn from(_: lg_vprint::Memory) -> Stop {
        Stop::Memory
    }
}

impl Stop {
    /// The status that the run ends with.
    pub fn status(&self) -> Status
        ensures { result ≡ status_of self.now }
    {
        match self {
            Stop::Usage => Status::Usage,
            Stop::Input(_) => Status::Input,
            Stop::NotAccepted(_) => Status::NotAccepted,
            Stop::ReadFault => Status::ReadFault,
            Stop::WriteFault => Status::WriteFault,
            Stop::Memory => Status::Memory,
        }
    }

    /// This stop, about a file.
    pub fn about(self, file: &str) -> Stopped<'_>
        ensures { (result.stop ≡ self) × (result.file.now ≡ file.now) }
    {
        Stopped { stop: self, file }
    }

    /// Ends the run: says the stop's line, under the file that it is about, and gives the status. A line that is lost
    /// changes nothing.
    pub fn end<E: Sink>(self, file: &str, err: &mut E) -> Status
        ensures status { result ≡ status_of self }
        ensures said { Said (E.seen err.old) (E.seen err.new) (line_of self file.now) }
    {
        let _ = self.write_line(file, err);
        self.status()
    }

    fn write_line<E: Sink>(&self, file: &str, err: &mut E) -> Result<(), SinkFault>
        ensures { Wrote result (E.seen err.old) (E.seen err.new) (line_of self.now file.now) }
    {
        match self {
            Stop::Usage => put(err, "lg: usage: lg VERB [OPTIONS] ARGUMENTS\n"),
            Stop::Input(refusal) => put_input(err, file, refusal),
            Stop::NotAccepted(condition) => put_unmet(err, condition),
            Stop::ReadFault => put_about(err, "lg: read fault: ", file, "\n"),
            Stop::WriteFault => put(err, "lg: write fault\n"),
            Stop::Memory => put(err, "lg: out of memory\n"),
        }
    }
}
