//! The top call: from words to a status.

ghost use Rattle.std.specs.Prelude.{◌≡◌, ◌↔◌, [], Some, None, IfSome};
ghost use Rattle.lg_io.specs.Fault.{HasRisen};
ghost use Rattle.lg_io.specs.Sink.{Said};
ghost use Rattle.lg_run.specs.Words.{words_of, command_of};
ghost use Rattle.lg_run.specs.Due.{Due, IsDue};
ghost use Rattle.lg_run.specs.Lines.{line_of};
ghost use Rattle.lg_run.specs.Outcome.{WroteDue, WrotePrefix, AgreesAsAsked, KeepsOutput, SaidLine, Follows, Ends};
ghost use Rattle.lg_run.specs.declared.stop.Stop.TheVariants as stop;

use crate::command::text_of;
use crate::status::Status;
use crate::stop::Stop;
use crate::words::read_words;
use lg_io::{Files, Sink, write_all};
use std::alloc::Global;

/// Obeys the words: what they ask for goes to `out`, and why a run stopped goes to `err` as one line.
pub fn run<F: Files, O: Sink, E: Sink>(
    alloc: Global,
    words: &[String],
    files: &mut F,
    out: &mut O,
    err: &mut E,
) -> Status
    // The words are no command.
    ensures usage { (result ≡ Status.Usage) ↔ (command_of (words_of words.now) ≡ None) }

    // The output has taken the due text and nothing else. Due is what the words and the files' contents ask for: the contents
    // that the files hold, where they tell them, and else some.
    ensures done { result ≡ Status.Done →
        WroteDue (words_of words.now) (F.seen files.old).held result (O.seen out.old) (O.seen out.new) }
    // The text of an export is that of a valid module which agrees with the circuit. On each list of rows of defined inputs
    // its outputs are those of the static rows. At each limit from the longest chain's delay on, such rows have one session
    // table, in which each row settles within that delay on those outputs.
    ensures agrees { result ≡ Status.Done →
        AgreesAsAsked (words_of words.now) (F.seen files.old).held (O.seen out.old) (O.seen out.new) }

    // A fault comes only where its count rose.
    ensures read_fault { result ≡ Status.ReadFault →
        HasRisen (F.seen files.old).faults (F.seen files.new).faults }
    ensures write_fault { result ≡ Status.WriteFault →
        HasRisen (O.seen out.old).faults (O.seen out.new).faults }
    ensures prefix { result ≡ Status.WriteFault →
        WrotePrefix (words_of words.now) (F.seen files.old).held (O.seen out.old) (O.seen out.new) }

    // After every other status nothing was written.
    ensures nothing_written { KeepsOutput out.old out.new result }

    // Where the files tell what they hold, the status is the due one, unless memory ran out or a count rose.
    ensures complete { IfSome (F.seen files.old).held
        (λ held. (due : Due) → IsDue (words_of words.now) (Some held) due →
        Follows due result (F.seen files.old) (F.seen files.new) (O.seen out.old) (O.seen out.new)) }

    // The status's line was said: for an input and for a circuit that is not accepted that of the stop that is due, for a read
    // fault that of a file that the command reads, the rows only after a valid module.
    ensures said { SaidLine (words_of words.now) (F.seen files.old).held result (E.seen err.old) (E.seen err.new) }

    ensures same_files { (F.seen files.new).held ≡ (F.seen files.old).held }
{
    let Some(asked) = read_words(words) else {
        return Stop::Usage.end("", err);
    };
    match text_of(alloc, &asked, files) {
        Ok(text) => write(text.as_slice(), out, err),
        Err(stopped) => stopped.stop.end(stopped.file, err),
    }
}

// Writes the text that was asked for.
fn write<O: Sink, E: Sink>(text: &[u8], out: &mut O, err: &mut E) -> Status
    ensures ends { Ends result (O.seen out.old) (O.seen out.new) text.now }
    ensures quiet { result ≡ Status.Done → err.new ≡ err.old }
    ensures said { result ≡ Status.WriteFault →
        Said (E.seen err.old) (E.seen err.new) (line_of stop.WriteFault []) }
{
    match write_all(out, text) {
        Ok(()) => Status::Done,
        Err(_) => Stop::WriteFault.end("", err),
    }
}
