//! The words of the command line, read by their short definition.

ghost use Rattle.std.specs.Prelude.{◌≡◌};
ghost use Rattle.lg_run.specs.Words.{words_of, command_of, verb_of, is_positional, asks};

/// What the words ask for: a verb with the names of its files.
#[derive(Clone, Copy, Debug)]
pub enum Asked<'a> {
    /// `export FILE`: the module of the circuit in a project file.
    Export(&'a str),
    /// `vrun MODULE ROWS`: the outputs of the module in the first file on the rows in the second.
    Vrun(&'a str, &'a str),
}

/// A verb of the command line.
#[derive(Clone, Copy, Debug, PartialEq, Eq)]
enum Verb {
    Export,
    Vrun,
}

/// What the words ask for, where they are a verb with as many words as it has files, each of which could be a file's name
/// and no option. None for all other words.
pub fn read_words(words: &[String]) -> Option<Asked<'_>>
    ensures { asks result ≡ command_of (words_of words.now) }
{
    let [verb, files @ ..] = words else {
        return None;
    };
    match (verb_of(verb.as_str())?, files) {
        (Verb::Export, [project]) if is_positional(project.as_str()) => {
            Some(Asked::Export(project.as_str()))
        }
        (Verb::Vrun, [module, rows])
            if is_positional(module.as_str()) && is_positional(rows.as_str()) => {
            Some(Asked::Vrun(module.as_str(), rows.as_str()))
        }
        _ => None,
    }
}

fn verb_of(word: &str) -> Option<Verb>
    ensures { result ≡ verb_of word.now }
{
    match word {
        "export" => Some(Verb::Export),
        "vrun" => Some(Verb::Vrun),
        _ => None,
    }
}

fn is_positional(word: &str) -> bool
    ensures { result ≡ is_positional word.now }
{
    match word.as_bytes() {
        [] => false,
        [first, ..] => *first != b'-',
    }
}
