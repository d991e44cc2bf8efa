//! Priorities as values, and the sources of priorities.

ghost use Rattle.std.specs.Prelude.{◌≡◌, IfErr, IfOk, IsTrue};
ghost use Rattle.page_parts.specs.Spelling.{priority_text};
ghost use Rattle.page_values.specs.Seen.{seen};
ghost use Rattle.page_values.specs.Texts.{is_text};
ghost use Rattle.page_model.specs.Operations as model;
ghost use Rattle.page_model.specs.PageSignals.{priority_value};
ghost use Rattle.page_tasks.specs.Seen.{prio_source};
ghost use Rattle.page_state.specs.PageActs.{read_by};
ghost use Rattle.trace_text.specs.declared.lines.NoLine.TheVariants.{OutOfMemory};

use page_hosts::HostPort;
use page_state::PageState;
use page_tasks::{PrioSource, Priority};
use page_values::{Str, Value};
use std::alloc::Global;
use std::sync::ledger::Ledger;
use trace_text::NoLine;

/// A priority as a value, unit for none. The one error is want of memory.
pub(crate) fn priority_word(alloc: Global, priority: Option<Priority>) -> Result<Value, NoLine>
    ensures word { IfOk result (λ value. seen value ≡ priority_value priority) }
    ensures memory { IfErr result (λ why. why ≡ OutOfMemory) }
{
    let Some(priority) = priority else {
        return Ok(Value::Unit);
    };
    let bytes = Vec::from_slice(alloc, word_of(priority))?;
    Ok(Value::Text(Str::new(bytes)))
}

// The word of a priority.
fn word_of(priority: Priority) -> &'static [u8]
    ensures word { result.now ≡ priority_text priority }
    ensures text { IsTrue (is_text result.now) }
{
    match priority {
        Priority::Background => b"background",
        Priority::UserVisible => b"user-visible",
        Priority::UserBlocking => b"user-blocking",
    }
}

/// The priority source of a task: the given priority, fixed; else the signal, where it has a priority; else fixed user-visible.
/// Takes no memory.
pub(crate) fn prio_source_of<P: HostPort, M: Ledger>(
    page: &PageState<P, M>,
    priority: Option<Priority>,
    signal: Option<u32>,
) -> PrioSource
    ensures { prio_source result ≡ read_by (λ p. model.prio_source_of p priority signal) page.now }
{
    match priority {
        Some(priority) => PrioSource::Fixed(priority),
        None => signal_source(page, signal),
    }
}

// A signal as priority source, where it has a priority; else fixed user-visible.
fn signal_source<P: HostPort, M: Ledger>(page: &PageState<P, M>, signal: Option<u32>) -> PrioSource
    ensures { prio_source result ≡ read_by (λ p. model.signal_source p signal) page.now }
{
    let Some(s) = signal else {
        return PrioSource::Fixed(Priority::UserVisible);
    };
    if page.priority_of(s).is_some() {
        PrioSource::Signal(s)
    } else {
        PrioSource::Fixed(Priority::UserVisible)
    }
}
