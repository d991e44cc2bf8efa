//! How the program answers.

ghost use Rattle.std.specs.Prelude.{◌≡◌};
ghost use Rattle.page_cli.specs.Statuses.{status_of};

use lang_names::NameFault;
use page_base::End;

/// One of the files that the words name.
#[derive(Clone, Copy, Debug, PartialEq, Eq)]
pub enum WhichFile {
    Script,
    Arrivals,
    Trace,
}

/// How the program answers. Each answer has its status.
#[derive(Clone, Copy, Debug, PartialEq, Eq)]
pub enum Answer {
    /// The run ended in this way, and its whole trace was written.
    Ended { end: End },
    /// What was asked for was written: that a trace is legal, what is told of one, or a plain script.
    Written,
    /// The words are of no form.
    Usage,
    /// The script has no tree. At this byte stands its first bad byte or, where none is bad, the first token with which
    /// it stops to be the beginning of a script.
    NoParse { at: usize },
    /// The script is none with async functions.
    NotAsync,
    /// A name in the script is at fault.
    BadName { fault: NameFault },
    /// The arrivals are refused at this line, counted from 1.
    BadArrivals { line: usize },
    /// The bytes are no trace: this line is the first that is refused, counted from 1.
    BadTrace { line: usize },
    /// The trace is not legal: this is the first line at which it differs from the run under its own choices, counted from 1.
    Differs { line: usize },
    /// The trace is not legal: the run under its own choices has no more lines than those before this one, since a choice is
    /// absent or not legal there.
    Illegal { line: usize },
    /// A file is longer than its limit.
    TooLong { file: WhichFile },
    /// A file could not be read.
    ReadFault { file: WhichFile },
    /// A line could not be written.
    WriteFault,
    /// Memory is wanting.
    OutOfMemory,
}

impl Answer {
    /// The exit status.
    pub fn status(self) -> u8
        ensures { result ≡ status_of self }
    {
        match self {
            Answer::Ended { end: End::Done } | Answer::Written => 0,
            Answer::Ended { end: End::Fuel } => 10,
            Answer::Ended { end: End::Clock } => 11,
            Answer::Usage => 2,
            Answer::NoParse { .. } | Answer::NotAsync => 3,
            Answer::BadArrivals { .. } => 4,
            Answer::BadName { .. } => 5,
            Answer::TooLong { .. } => 6,
            Answer::Differs { .. } | Answer::Illegal { .. } => 7,
            Answer::BadTrace { .. } => 8,
            Answer::ReadFault { .. } => 74,
            Answer::WriteFault => 75,
            Answer::OutOfMemory => 70,
        }
    }
}
