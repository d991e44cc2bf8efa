//! What the words ask for.

ghost use Rattle.std.specs.Prelude.{◌≡◌, map, string_bytes};
ghost use Rattle.page_cli.specs.Forms.{form_of, word_form, three_form, picture_of};
ghost use Rattle.page_cli.specs.Names.{names_seen, check_names_seen};

use crate::storm_size::StormSize;

/// The names of the files in `run S A`.
#[derive(Clone, Copy, Debug)]
pub struct Names<'a> {
    pub script: &'a str,
    pub arrivals: &'a str,
}

/// The names of the files in `check S A T` and in `migrate S A T`.
#[derive(Clone, Copy, Debug)]
pub struct CheckNames<'a> {
    pub script: &'a str,
    pub arrivals: &'a str,
    pub trace: &'a str,
}

/// What is told of a trace.
#[derive(Clone, Copy, Debug, PartialEq, Eq)]
pub enum Picture {
    /// Its calls, as a file that timeline viewers open.
    Export,
    /// Its long turns, and what made them so.
    Blame,
    /// How many turns, calls, drops and settlings it has, and how it ends.
    Counts,
}

/// What the words ask for.
#[derive(Clone, Copy, Debug)]
pub enum Asked<'a> {
    /// `run S A`
    Run(Names<'a>),
    /// `check S A T`
    Check(CheckNames<'a>),
    /// `migrate S A T`
    Migrate(CheckNames<'a>),
    /// `storm N`
    Storm(StormSize),
    /// `export T`, `blame T` or `stat T`
    Picture { what: Picture, trace: &'a str },
    /// `expand S`
    Expand { script: &'a str },
}

/// What the words ask for, where they have a form.
pub(crate) fn asked_in(words: &[String]) -> Option<Asked<'_>>
    ensures { names_seen result ≡ form_of (map string_bytes words.now) }
{
    match words {
        [command, word] => asked_of_word(command.as_str(), word.as_str()),
        [run, script, arrivals] if run.as_str() == "run" => Some(Asked::Run(Names {
            script: script.as_str(),
            arrivals: arrivals.as_str(),
        })),
        [command, script, arrivals, trace] => {
            let names = CheckNames {
                script: script.as_str(),
                arrivals: arrivals.as_str(),
                trace: trace.as_str(),
            };
            asked_of_three(command.as_str(), names)
        }
        _ => None,
    }
}

/// What a command asks of one word, which names a file, or is the number of a storm.
fn asked_of_word<'a>(command: &str, word: &'a str) -> Option<Asked<'a>>
    ensures { names_seen result ≡ word_form command.now word.now }
{
    if command == "expand" {
        return Some(Asked::Expand { script: word });
    }
    if command == "storm" {
        return Some(Asked::Storm(StormSize::read(word)?));
    }
    let what = picture_of(command)?;
    Some(Asked::Picture { what, trace: word })
}

/// What a command asks of three files.
fn asked_of_three<'a>(command: &str, names: CheckNames<'a>) -> Option<Asked<'a>>
    ensures { names_seen result ≡ three_form command.now (check_names_seen names.entry) }
{
    if command == "check" {
        Some(Asked::Check(names))
    } else if command == "migrate" {
        Some(Asked::Migrate(names))
    } else {
        None
    }
}

/// What a command tells of a trace, where it tells something.
fn picture_of(command: &str) -> Option<Picture>
    ensures { result ≡ picture_of command.now }
{
    if command == "export" {
        Some(Picture::Export)
    } else if command == "blame" {
        Some(Picture::Blame)
    } else if command == "stat" {
        Some(Picture::Counts)
    } else {
        None
    }
}
