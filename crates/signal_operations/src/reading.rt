//! What is read of a signal or a controller (DOM, "Interface AbortController" and "Interface AbortSignal"; Prioritized Task
//! Scheduling, "The TaskSignal Interface"). No line is written.

ghost use Rattle.page_answers.specs.Serving.{Serves};
ghost use Rattle.signal_operations.specs.OfValues.{aborted_told, priority_told, reason_told, signal_told};

use crate::priorities::priority_word;
use lang_ast::HostStep;
use page_answers::{give, throw};
use page_hosts::HostPort;
use page_state::PageState;
use page_values::{FaultName, Value, as_controller, as_signal};
use std::sync::ledger::Ledger;
use trace_text::{Lines, NoLine};

/// `signal`: the signal of a controller. TypeError for any other value.
pub fn signal<P: HostPort, M: Ledger, L: Lines>(
    page: &PageState<P, M>,
    controller: Value,
    lines: &L,
) -> Result<HostStep, NoLine>
    ensures { Serves L.Lines page.now lines.now (signal_told controller) result page.now lines.now }
{
    match as_controller(&controller) {
        Some(s) => Ok(give(Value::Signal(s))),
        None => Ok(throw(page.alloc(), FaultName::TypeError)),
    }
}

/// `aborted`: whether a signal is aborted. TypeError for any other value.
pub fn aborted<P: HostPort, M: Ledger, L: Lines>(
    page: &PageState<P, M>,
    signal: Value,
    lines: &L,
) -> Result<HostStep, NoLine>
    ensures { Serves L.Lines page.now lines.now (aborted_told signal) result page.now lines.now }
{
    match as_signal(&signal) {
        Some(s) => Ok(give(Value::Bool(page.is_aborted(s)))),
        None => Ok(throw(page.alloc(), FaultName::TypeError)),
    }
}

/// `reason`: the reason of a signal, unit where it is not aborted. TypeError for any other value.
pub fn reason<P: HostPort, M: Ledger, L: Lines>(
    page: &PageState<P, M>,
    signal: Value,
    lines: &L,
) -> Result<HostStep, NoLine>
    ensures { Serves L.Lines page.now lines.now (reason_told signal) result page.now lines.now }
{
    let Some(s) = as_signal(&signal) else {
        return Ok(throw(page.alloc(), FaultName::TypeError));
    };
    let reason = page.reason_value(s)?;
    Ok(give(reason))
}

/// `priority`: the priority that a signal has now, unit where it has none. TypeError for any other value.
pub fn priority<P: HostPort, M: Ledger, L: Lines>(
    page: &PageState<P, M>,
    signal: Value,
    lines: &L,
) -> Result<HostStep, NoLine>
    ensures { Serves L.Lines page.now lines.now (priority_told signal) result page.now lines.now }
{
    let Some(s) = as_signal(&signal) else {
        return Ok(throw(page.alloc(), FaultName::TypeError));
    };
    let priority = priority_word(page.alloc(), page.priority_of(s))?;
    Ok(give(priority))
}
