//! Lines that go to a sink.

ghost use Rattle.std.specs.Prelude.{◌≡◌};

use crate::words::head_line;
use crate::writing::write_line;
use crate::{Lines, NoLine, Stamped};
use page_io::Sink;
use std::alloc::Global;
use std::marker::Model;

/// Hands each line, with its line feed, to one `put` of the sink that it owns.
#[derive(Drop)]
pub struct LineSink<O: Sink> {
    out: O,
    /// Where a line is written before it is put.
    line: Vec<u8>,
}

impl<O: Sink> Model for LineSink<O> {
    ghost Value = { O };

    ghost view = { λ lines. lines.out };
}

impl<O: Sink> LineSink<O> {
    /// Lines that go to this sink. Takes no memory.
    pub fn new(alloc: Global, out: O) -> LineSink<O>
        ensures { result ≡ out }
    {
        LineSink {
            out,
            line: Vec::new(alloc),
        }
    }

    /// The sink, as it stands. Takes no memory.
    pub fn into_sink(self) -> O
        ensures { result ≡ self }
    {
        let LineSink { out, line: _ } = self;
        out
    }
}

impl<O: Sink> Lines for LineSink<O> {
    ghost use Rattle.std.specs.Prelude.{◌≢◌, ℕ, List};
    ghost use Rattle.trace_text.specs.declared.lines.NoLine.TheVariants.{OutOfMemory};
    ghost use Rattle.page_types.specs.Counts.{raised};
    ghost use Rattle.trace_text.specs.EventSeen.{stamped_seen};
    ghost use Rattle.trace_text.specs.Line.{Head, Of};
    ghost use Rattle.trace_text.specs.Sinks.{PutsLine, puts_after, seen_through, sink_keeping};
    ghost use Rattle.trace_text.specs.Trace.{IsForm};

    ghost Told = { List ℕ };

    ghost seen = { seen_through O.bytes O.faults };

    ghost keeping = { sink_keeping };

    /// It takes no memory.
    fn head(&mut self, form: u32) -> Result<(), NoLine>
        requires { IsForm form }
        ensures gives { PutsLine O.bytes O.faults self.old (Head form) result self.new }
        ensures no_memory { result ≢ Err OutOfMemory }
        ensures one_put { O.puts self.new ≡ raised (O.puts self.old) }
    {
        match self.out.put(head_line(form)) {
            Ok(()) => Ok(()),
            Err(_) => Err(NoLine::Failed),
        }
    }

    /// For want of memory nothing is put.
    fn emit(&mut self, e: &Stamped) -> Result<(), NoLine>
        ensures gives { PutsLine O.bytes O.faults self.old (Of (stamped_seen e.now)) result self.new }
        ensures one_put { O.puts self.new ≡ puts_after (O.puts self.old) result }
    {
        self.line.clear();
        write_line(e, &mut self.line)?;
        match self.out.put(&self.line) {
            Ok(()) => Ok(()),
            Err(_) => Err(NoLine::Failed),
        }
    }
}
