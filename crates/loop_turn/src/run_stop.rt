//! Why a run of a page stopped before its end.

ghost use Rattle.std.specs.Prelude.{◌≡◌};

use loop_policy::NoChoice;
use page_base::NoReading;
use page_host::PageStop;
use trace_text::NoLine;

/// Why a run stopped before its end. Each but want of memory comes exactly where the object that was handed in answered so.
#[derive(Clone, Copy, Debug, PartialEq, Eq)]
pub enum RunStop {
    /// A line could not be written.
    WriteFault,
    /// A line is not the one that is kept.
    Differs,
    /// The clock gave no reading.
    NoReading,
    /// The chooser chose no source.
    NoChoice,
    /// The host port gave no answer.
    NoHost,
    OutOfMemory,
}

impl From<PageStop> for RunStop {
    ghost use Rattle.loop_turn.specs.RunStops.{run_stop_of};

    ghost from_gives = { λ why e. e ≡ run_stop_of why };

    fn from(why: PageStop) -> RunStop {
        match why {
            PageStop::WriteFault => RunStop::WriteFault,
            PageStop::Differs => RunStop::Differs,
            PageStop::NoHost => RunStop::NoHost,
            PageStop::OutOfMemory => RunStop::OutOfMemory,
        }
    }
}

impl From<NoLine> for RunStop {
    ghost use Rattle.loop_turn.specs.RunStops.{run_stop_at};

    ghost from_gives = { λ why e. e ≡ run_stop_at why };

    fn from(why: NoLine) -> RunStop {
        match why {
            NoLine::Failed => RunStop::WriteFault,
            NoLine::Differs => RunStop::Differs,
            NoLine::OutOfMemory => RunStop::OutOfMemory,
        }
    }
}

impl From<NoReading> for RunStop {
    ghost use Rattle.loop_turn.specs.declared.run_stop.RunStop.TheVariants.{NoReading};

    ghost from_gives = { λ _ e. e ≡ NoReading };

    fn from(_: NoReading) -> RunStop {
        RunStop::NoReading
    }
}

impl From<NoChoice> for RunStop {
    ghost use Rattle.loop_turn.specs.declared.run_stop.RunStop.TheVariants.{NoChoice};

    ghost from_gives = { λ _ e. e ≡ NoChoice };

    fn from(_: NoChoice) -> RunStop {
        RunStop::NoChoice
    }
}
