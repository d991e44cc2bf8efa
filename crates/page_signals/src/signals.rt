ghost use Rattle.std.specs.Prelude.{◌≡◌, ◌≢◌, ◌+◌, ◌^◌, ◌<◌, map, length, reverse, not, None, is_some, IfOk, OnOk, OnErr};
ghost use Rattle.std.specs.Vec.{vec_len, vec_capacity};
ghost use Rattle.std.specs.Option.{option_map};
ghost use Rattle.page_parts.specs.AbortGraph as graph;
ghost use Rattle.page_parts.specs.AbortGraph.{the_signal, reason_of, marked};
ghost use Rattle.page_parts.specs.Listeners as heard;
ghost use Rattle.page_parts.specs.TaskSignals as prios;
ghost use Rattle.page_parts.specs.TaskSignals.{priority_of, followed as followed_by};
ghost use Rattle.page_parts.specs.Words.{has_number};
ghost use Rattle.page_model.specs.PageSignals.{has_priority as has_this_priority};
ghost use Rattle.page_values.specs.Seen.{seen};
ghost use Rattle.page_events.specs.Dispatching.{next_listening, behind_next};
ghost use Rattle.page_events.specs.Seen.{seen_target};
ghost use Rattle.task_signal.specs.Changes.{HasPriority, IsStill};
ghost use Rattle.page_signals.specs.Signalling.{nothing, on_signals, on_prios, on_listeners};
ghost use Rattle.page_signals.specs.Steps.{IsMade, dispatch_opened, reason_set, abort_opened, change_opened, algorithms_taken, reported, when_in, is_calling_in, stepped, Falls};
ghost use Rattle.page_signals.specs.Made.{AbortLeaves, IsNumbered, LeavesPriorities};
ghost use Rattle.page_folds.specs.AtRest.{at_rest};
ghost use Rattle.page_folds.specs.Seen.{standing};
ghost use Rattle.page_signals.specs.Seen.{when_seen, visit_seen, signalling_seen, StepsTo};
ghost use Rattle.page_signals.specs.Kept.{AreFitting, IsKept};

use crate::opened::{Kind, Open, WhenReported};
use crate::{Algorithms, MemoryFault, Visit};
use page_events::{Dispatch, Target};
use page_folds::{FoldStep, Folds, Signals};
use page_values::{Str, Value};
use std::alloc::Global;
use std::marker::Model;
use task_signal::Priority;

/// The signals, priorities and listeners of a page, and its open folds, the innermost first (DOM, "Interface AbortSignal" and
/// "Dispatching events"; Prioritized Task Scheduling, "The TaskSignal Interface").
///
/// Signals and registrations are numbers. Each call costs look-ups, and what it names besides. Where one fails for want of memory
/// nothing has changed, but where it says otherwise.
#[derive(Drop)]
pub struct PageSignals {
    alloc: Global,
    folds: Folds,
    // The values that the reasons of signals are the numbers of.
    reasons: Vec<Value>,
    // What is known of each open fold, the innermost one last.
    opened: Vec<Open>,
}

impl Model for PageSignals {
    ghost use Rattle.std.specs.Prelude.{length, reverse};
    ghost use Rattle.page_signals.specs.Signalling.{Signalling};
    ghost use Rattle.page_signals.specs.Codes.{coded_signalling};

    ghost Value = { Signalling };

    ghost coded = { coded_signalling };

    ghost use Rattle.page_folds.specs.Seen.{standing};
    ghost use Rattle.page_signals.specs.Seen.{signalling_seen};
    ghost use Rattle.page_signals.specs.Kept.{IsKept};

    ghost view = { λ a. signalling_seen a.reasons.items a.folds a.opened.items };

    ghost invariant = { λ a. IsKept (length a.reasons.items) (standing a.folds) (reverse a.opened.items) };
}

impl PageSignals {
    /// Nothing at all. It keeps the allocator and takes no memory yet.
    pub fn new(alloc: Global) -> PageSignals
        ensures { result ≡ nothing }
    {
        PageSignals {
            alloc,
            folds: Folds::new(alloc),
            reasons: Vec::new(alloc),
            opened: Vec::new(alloc),
        }
    }

    /// How many signals were made, which is the number of the last one. Takes no memory.
    pub fn made(&self) -> u32
        ensures { result ≡ length self.now.signals }
    {
        self.folds.signals.made()
    }

    /// Makes a signal and answers its number, which has to be below 2^32.
    pub fn make(&mut self) -> Result<u32, MemoryFault>
        requires { length self.old.signals + 1 < 2 ^ 32 }
        ensures number { IfOk result (λ s. s ≡ length self.old.signals + 1) }
        ensures made { OnOk result (self.new ≡ on_signals graph.make self.old) }
        ensures err { OnErr result (self.new ≡ self.old) }
    {
        Ok(self.folds.signals.make()?)
    }

    /// Makes a signal that is aborted already, and answers its number, which has to be below 2^32 (DOM, "Interface AbortSignal":
    /// abort).
    ///
    /// Want of memory is also told where 2^32 reasons were set before.
    pub fn make_aborted(&mut self, reason: Value) -> Result<u32, MemoryFault>
        requires { length self.old.signals + 1 < 2 ^ 32 }
        ensures number { IfOk result (λ s. s ≡ length self.old.signals + 1) }
        ensures made { OnOk result (self.new ≡
            on_signals (graph.make_aborted (seen reason)) self.old) }
        ensures err { OnErr result (self.new ≡ self.old) }
    {
        let number = next_number(&mut self.reasons)?;
        let s = self.folds.signals.make_aborted(number)?;
        self.reasons.push_reserved(reason);
        Ok(s)
    }

    /// Makes a signal that depends on these, and answers its number, which has to be below 2^32 (DOM, "Interface AbortSignal":
    /// create a dependent abort signal).
    pub fn any(&mut self, of: &[u32]) -> Result<u32, MemoryFault>
        requires { length self.old.signals + 1 < 2 ^ 32 }
        ensures number { IfOk result (λ s. s ≡ length self.old.signals + 1) }
        ensures made { OnOk result (self.new ≡ on_signals (graph.any of.now) self.old) }
        ensures err { OnErr result (self.new ≡ self.old) }
    {
        Ok(self.folds.signals.any(of)?)
    }

    /// Whether a signal is aborted. Takes no memory.
    pub fn is_aborted(&self, s: u32) -> bool
        ensures { result ≡ graph.is_aborted self.now.signals s }
    {
        self.folds.signals.reason(s).is_some()
    }

    /// The reason of a signal, none exactly where it is not aborted. Takes no memory.
    pub fn reason(&self, s: u32) -> Option<&Value>
        ensures { option_map (λ reason. seen reason.now) result ≡ reason_of self.now.signals s }
    {
        let number = *self.folds.signals.reason(s)?;
        Some(&self.reasons[number as usize])
    }

    /// Adds the abort steps of a registration to a signal, behind its others.
    ///
    /// Want of memory is also told where 2^64 - 1 were added to this signal since they were taken.
    pub fn add_algorithm(&mut self, s: u32, r: u32) -> Result<(), MemoryFault>
        ensures added { OnOk result (self.new ≡ on_signals (graph.add_algorithm s r) self.old) }
        ensures err { OnErr result (self.new ≡ self.old) }
    {
        self.folds.signals.add_algorithm(s, u64::from(r))?;
        Ok(())
    }

    /// Takes the abort steps of a registration off a signal.
    ///
    /// True exactly where they were among its own, and else nothing changes. Takes no memory.
    pub fn remove_algorithm(&mut self, s: u32, r: u32) -> bool
        ensures was { result ≡ has_number (the_signal self.old.signals s).algorithms r }
        ensures gone { self.new ≡ on_signals (graph.remove_algorithm s r) self.old }
    {
        self.folds.signals.remove_algorithm(s, u64::from(r))
    }

    /// Sets the abort reason on a signal and on each of its dependent signals that is not aborted, and answers those, the signal
    /// first: their abort steps are to run in this order (DOM, "Interface AbortSignal": signal abort).
    ///
    /// None of them, and no change, exactly where the signal is aborted. Want of memory is also told where 2^32 reasons were set
    /// before.
    pub fn abort_mark(&mut self, s: u32, reason: Value) -> Result<Vec<u32>, MemoryFault>
        ensures marked { IfOk result (λ ss. ss.items ≡ marked s self.old.signals) }
        ensures set { OnOk result (self.new ≡ reason_set s (seen reason) self.old) }
        ensures err { OnErr result (self.new ≡ self.old) }
    {
        if self.is_aborted(s) {
            return Ok(Vec::new(self.alloc));
        }
        let number = next_number(&mut self.reasons)?;
        let marked = self.folds.signals.abort_mark(s, number)?;
        self.reasons.push_reserved(reason);
        Ok(marked.into_signals())
    }

    /// Hands over the abort steps of a signal, in the order in which they were added, and keeps none. Takes no memory.
    pub fn take_algorithms(&mut self, s: u32) -> Algorithms
        ensures all { result ≡ (the_signal self.old.signals s).algorithms }
        ensures none { self.new ≡ algorithms_taken s self.old }
    {
        let taken = self.folds.signals.take_algorithms(s);
        Algorithms::new(taken)
    }

    /// Whether a signal was given a priority. Takes no memory.
    pub fn has_priority(&self, s: u32) -> bool
        ensures { result ≡ is_some (priority_of self.now.prios s) }
    {
        self.folds.prios.priority(s).is_some()
    }

    /// The priority of a signal now, none exactly where it was given none. Takes no memory.
    pub fn priority(&self, s: u32) -> Option<Priority>
        ensures { result ≡ priority_of self.now.prios s }
    {
        self.folds.prios.priority(s)
    }

    /// Gives a signal its first priority. It follows no signal, and none follows it.
    pub fn give(&mut self, s: u32, p: Priority) -> Result<(), MemoryFault>
        requires { priority_of self.old.prios s ≡ None }
        ensures given { OnOk result (self.new ≡ on_prios (prios.give s p) self.old) }
        ensures err { OnErr result (self.new ≡ self.old) }
    {
        self.folds.prios.give(s, p)?;
        Ok(())
    }

    /// From now on `s` follows `on`. Both were given a priority, and neither follows a signal yet.
    pub fn follow(&mut self, s: u32, on: u32) -> Result<(), MemoryFault>
        requires follower { HasPriority s self.old.prios }
        requires source { HasPriority on self.old.prios }
        requires free { followed_by self.old.prios s ≡ None }
        requires first { followed_by self.old.prios on ≡ None }
        requires apart { s ≢ on }
        ensures follows { OnOk result (self.new ≡ on_prios (prios.depend s on) self.old) }
        ensures err { OnErr result (self.new ≡ self.old) }
    {
        self.folds.prios.depend(s, on)?;
        Ok(())
    }

    /// The signal that this one follows, none exactly where it follows none. Takes no memory.
    pub fn followed(&self, s: u32) -> Option<u32>
        ensures { result ≡ followed_by self.now.prios s }
    {
        self.folds.prios.followed(s)
    }

    /// Whether a change of a signal's priority is in progress. Takes no memory.
    pub fn is_changing(&self, s: u32) -> bool
        ensures { result ≡ prios.is_changing self.now.prios s }
    {
        self.folds.prios.is_changing(s)
    }

    /// Adds a listener behind all others (DOM, "Interface EventTarget").
    ///
    /// Want of memory is also told where 2^64 - 1 listeners were added before.
    pub fn listen(&mut self, target: Target, name: &Str, r: u32) -> Result<(), MemoryFault>
        ensures added { OnOk result (self.new ≡
            on_listeners (heard.add (seen_target target) name.now r) self.old) }
        ensures err { OnErr result (self.new ≡ self.old) }
    {
        self.folds.listeners.add(target, name, r)?;
        Ok(())
    }

    /// Removes a listener. A dispatch that has begun does not call it any more.
    ///
    /// True exactly where it was live, and else nothing changes. Takes no memory.
    pub fn unlisten(&mut self, r: u32) -> bool
        ensures was { result ≡ heard.is_listening r self.old.listeners }
        ensures gone { self.new ≡ on_listeners (heard.off r) self.old }
    {
        self.folds.listeners.off(r)
    }

    /// Whether a listener is live: it was added, and not removed. Takes no memory.
    pub fn is_listening(&self, r: u32) -> bool
        ensures { result ≡ heard.is_listening r self.now.listeners }
    {
        self.folds.listeners.is_listening(r)
    }

    /// Whether a number is the registration of a live listener. Each registration is below 2^32. Takes no memory.
    pub fn is_listening_number(&self, number: u64) -> bool
        ensures { result ≡ heard.is_listening number self.now.listeners }
    {
        self.folds.listeners.is_listening_number(number)
    }

    /// Begins a dispatch that a task runs, to the listeners of this target and name as they are now (DOM, "Dispatching events").
    pub fn begin(&self, target: Target, name: &Str) -> Result<Dispatch, MemoryFault>
        ensures { IfOk result (λ dispatch.
            dispatch ≡ heard.snapshot (seen_target target) name.now self.now.listeners) }
    {
        Ok(self.folds.listeners.begin(target, name)?)
    }

    /// The next listener of such a dispatch: the first one left that was not removed since it began, none exactly where it is over.
    /// Takes no memory.
    pub fn next(&self, dispatch: &mut Dispatch) -> Option<u32>
        ensures registration { result ≡ next_listening self.now.listeners dispatch.old }
        ensures left { dispatch.new ≡ behind_next self.now.listeners dispatch.old }
    {
        self.folds.listeners.next(dispatch)
    }

    /// How many folds are open, which is the ticket of the next one. Takes no memory.
    pub fn open_count(&self) -> u64
        ensures count { result ≡ length self.now.folds }
        ensures fit { AreFitting self.now }
    {
        self.opened.len() as u64
    }

    /// Opens a dispatch to the listeners of this target and name as they are now, which get these arguments (DOM, "Dispatching
    /// events").
    pub fn open_dispatch(
        &mut self,
        target: Target,
        name: &Str,
        arguments: Vec<Value>,
    ) -> Result<(), MemoryFault>
        ensures opened { OnOk result (self.new ≡
            dispatch_opened target name.now (map seen arguments.items) self.old) }
        ensures err { OnErr result (self.new ≡ self.old) }
    {
        self.opened.reserve(1)?;
        self.folds.begin_dispatch(target, name)?;
        self.opened
            .push_reserved(Open::new(Kind::Dispatch(arguments)));
        Ok(())
    }

    /// Sets the abort reason as [`PageSignals::abort_mark`] does, and opens the abort steps of the signals that it answers. Where the
    /// signal is aborted already there are none, and its own reason stays.
    ///
    /// After want of memory the reason may be set. It is also told where 2^32 reasons were set before.
    pub fn open_abort(&mut self, s: u32, reason: Value) -> Result<Vec<u32>, MemoryFault>
        requires { IsMade s self.old.signals }
        ensures marked { IfOk result (λ ss. ss.items ≡ marked s self.old.signals) }
        ensures opened { OnOk result (self.new ≡ abort_opened s (seen reason) self.old) }
        ensures err { OnErr result (AbortLeaves s (seen reason) self.old self.new) }
    {
        self.opened.reserve(1)?;
        let number = reason_number(&self.folds.signals, &mut self.reasons, s, reason)?;
        let aborting = self.folds.begin_abort(s, number)?;
        self.opened.push_reserved(Open::new(Kind::Abort(number)));
        Ok(aborting.marked)
    }

    /// Opens a change of the priority of a signal, which was given one and whose priority is not being changed (Prioritized Task
    /// Scheduling, "The TaskSignal Interface": signal priority change). The priority is set at once, and its first step tells so.
    ///
    /// False exactly where this is its priority already, and then nothing is opened.
    pub fn open_change(&mut self, s: u32, p: Priority) -> Result<bool, MemoryFault>
        requires given { HasPriority s self.old.prios }
        requires still { IsStill s self.old.prios }
        ensures answer { IfOk result (λ is_opened.
            is_opened ≡ not (has_this_priority self.old.prios s p)) }
        ensures opened { OnOk result (self.new ≡ change_opened s p self.old) }
        ensures err { OnErr result (self.new ≡ self.old) }
    {
        self.opened.reserve(1)?;
        let Some(before) = self.folds.prios.priority(s) else {
            return Ok(false);
        };
        match self.folds.begin_change(s, p) {
            Ok(Some(_)) => {
                self.opened
                    .push_reserved(Open::new(Kind::Change { to: p, before }));
                Ok(true)
            }
            Ok(None) => Ok(false),
            Err(_) => Err(MemoryFault::OutOfMemory),
        }
    }

    /// From now on a callback runs under the innermost fold, a throw of which is reported then. With no fold open nothing changes.
    /// Takes no memory.
    pub fn set_when(&mut self, when: WhenReported)
        ensures { self.new ≡ reported (when_seen when) self.old }
    {
        if let Some(mut innermost) = self.opened.pop() {
            innermost.when = when;
            self.opened.push_reserved(innermost);
        }
    }

    /// When a throw of the callback that runs under the innermost fold is reported, never with no fold open. Takes no memory.
    pub fn when(&self) -> WhenReported
        ensures { when_seen result ≡ when_in self.now.folds }
    {
        match self.opened.last() {
            Some(innermost) => innermost.when,
            None => WhenReported::Never,
        }
    }

    /// Whether the innermost fold calls listeners, false with no fold open. Takes no memory.
    pub fn is_calling(&self) -> bool
        ensures { result ≡ is_calling_in self.now.folds }
    {
        self.folds.is_calling()
    }

    /// The next step of the innermost fold.
    ///
    /// [`Visit::Finished`] exactly where it has nothing left to visit, and then it is closed. The number of algorithms, listeners and
    /// changes that it has still to visit falls at each other step.
    ///
    /// After want of memory no signal, no listener and no open fold is left. Each signal that had a priority has it.
    pub fn step(&mut self) -> Result<Visit, MemoryFault>
        ensures step { IfOk result (λ visit. (visit_seen visit, self.new) ≡ stepped self.old) }
        ensures falls { IfOk result (λ visit. Falls (visit_seen visit) self.old self.new) }
        ensures before { AreFitting self.old }
        ensures after { AreFitting self.new }
        ensures err { OnErr result (LeavesPriorities self.old self.new) }
    {
        match advance(self.alloc, &mut self.folds, &self.reasons, &mut self.opened) {
            Ok(visit) => Ok(visit),
            Err(fault) => {
                self.folds.keep_priorities();
                self.opened.clear();
                Err(fault)
            }
        }
    }
}

// The number of the next reason, for which there is room then. Want of memory is also told where 2^32 are there.
fn next_number(reasons: &mut Vec<Value>) -> Result<u32, MemoryFault>
    ensures number { IfOk result (λ number. number ≡ vec_len reasons.old) }
    ensures room { OnOk result (vec_len reasons.new < vec_capacity reasons.new) }
    ensures items { reasons.new.items ≡ reasons.old.items }
{
    reasons.reserve(1)?;
    match u32::try_from(reasons.len()) {
        Ok(number) => Ok(number),
        Err(_) => Err(MemoryFault::OutOfMemory),
    }
}

// The number of the reason of an abort: a signal that is aborted has its own one, and else this reason is put behind the others. For
// want of memory the reasons stay.
fn reason_number(
    signals: &Signals<u32>,
    reasons: &mut Vec<Value>,
    s: u32,
    reason: Value,
) -> Result<u32, MemoryFault>
    ensures number { IfOk result (λ number.
        IsNumbered s signals.now reasons.old.items reason number reasons.new.items) }
    ensures err { OnErr result (reasons.new.items ≡ reasons.old.items) }
{
    if let Some(own) = signals.reason(s) {
        return Ok(*own);
    }
    let number = next_number(reasons)?;
    reasons.push_reserved(reason);
    Ok(number)
}

// The next step of the innermost fold. For want of memory changes may have ended, and no priority is another.
fn advance(
    alloc: Global,
    folds: &mut Folds,
    reasons: &[Value],
    opened: &mut Vec<Open>,
) -> Result<Visit, MemoryFault>
    requires { IsKept (length reasons.now) (standing folds.old) (reverse opened.old.items) }
    ensures step { IfOk result (λ next. StepsTo reasons.now folds.old opened.old.items next folds.new opened.new.items) }
    ensures kept { OnOk result
        (IsKept (length reasons.now) (standing folds.new) (reverse opened.new.items)) }
    ensures err { OnErr result (at_rest folds.new.prios ≡ at_rest folds.old.prios) }
{
    let Some(mut innermost) = opened.pop() else {
        return Ok(Visit::Finished);
    };
    let visit = match folds.step(opened.len() as u64)? {
        FoldStep::Algorithm(a) => Visit::Algorithm {
            registration: a as u32,
            reason: innermost.kind.reason(alloc, reasons)?,
        },
        FoldStep::Listener {
            target,
            registration,
        } => Visit::Listener {
            registration,
            arguments: innermost.kind.arguments(alloc, target)?,
        },
        FoldStep::Changed { signal, before } => {
            let priority = innermost.kind.priority_to(before);
            innermost.kind = Kind::Change {
                to: priority,
                before,
            };
            Visit::Changed {
                signal,
                before,
                priority,
            }
        }
        FoldStep::Finished => return Ok(Visit::Finished),
    };
    opened.push_reserved(innermost);
    Ok(visit)
}
