ghost use Rattle.std.specs.Prelude.{◌≡◌, [], ◌∷◌, length, IfOk, OnOk, OnErr};
ghost use Rattle.page_parts.specs.AbortGraph.{marked as marked_by};
ghost use Rattle.task_signal.specs.Changes.{HasPriority};
ghost use Rattle.page_folds.specs.Steps.{IsInnermost, outer, dispatch_begun, abort_begun, stepped};
ghost use Rattle.page_folds.specs.Begins.{AbortLeaves, IsChange, ChangeLeaves};
ghost use Rattle.page_folds.specs.Visits.{Falls};
ghost use Rattle.page_folds.specs.Seen.{fold_of, parts_of, open_of, standing};
ghost use Rattle.page_folds.specs.AtRest.{at_rest};
ghost use Rattle.page_folds.specs.Calls.{calls_in};

use crate::changes::{Changes, Level};
use crate::fold::{Fold, Rest};
use crate::stage::Stage;
use crate::{Aborting, FoldStep, MemoryFault};
use abort_graph::Signals;
use page_events::{Listeners, Target};
use page_values::Str;
use std::alloc::Global;
use std::collections::VecDeque;
use task_signal::{ChangeFault, Priority, Prios};

/// The listeners, the signals and the priorities of a page, and its open folds.
///
/// A fold is a dispatch, an abort or a change of a priority that has begun. It goes on by [`Folds::step`] under its ticket, one step
/// at a time, and the caller does between two steps what the first one says: it runs an abort algorithm, calls a listener or moves
/// tasks. That may begin further folds. So open folds nest, and the one that was begun last goes on first.
///
/// A signal's reason is a number that the caller hands in for it. No call costs more than what it names, and look-ups besides.
#[derive(Drop)]
pub struct Folds {
    pub listeners: Listeners,
    pub signals: Signals<u32>,
    pub prios: Prios,
    alloc: Global,
    // The open folds, the innermost one last. Its ticket is the number of folds before it.
    open_folds: Vec<Fold>,
}

impl Folds {
    /// No listener, no signal and no open fold. It keeps the allocator and takes no memory yet.
    pub fn new(alloc: Global) -> Folds
        ensures listeners { result.listeners ≡ [] }
        ensures signals { result.signals ≡ [] }
        ensures prios { result.prios ≡ [] }
        ensures open { open_of result ≡ [] }
    {
        Folds {
            listeners: Listeners::new(alloc),
            signals: Signals::new(alloc),
            prios: Prios::new(alloc),
            alloc,
            open_folds: Vec::new(alloc),
        }
    }

    /// Begins a dispatch to the listeners of this target and name as they are now, and answers its ticket (DOM, "Dispatching
    /// events").
    ///
    /// It costs a look-up, and looks at these listeners alone. For want of memory nothing changes.
    pub fn begin_dispatch(&mut self, target: Target, name: &Str) -> Result<u64, MemoryFault>
        ensures ticket { IfOk result (λ ticket. ticket ≡ length (open_of self.old)) }
        ensures opened { OnOk result (standing self.new ≡ dispatch_begun target name.now (standing self.old)) }
        ensures err { OnErr result (standing self.new ≡ standing self.old) }
    {
        let left = self.listeners.begin(target, name)?;
        self.begin(
            Stage::Calling { target, left },
            Rest::Aborts(Vec::new(self.alloc).into_iter()),
        )
    }

    /// Sets the abort reason on a signal and on each of its dependent signals that is not aborted, and begins the abort steps of
    /// those, the signal first (DOM, "Interface AbortSignal": signal abort). Where the signal is aborted already there are none.
    ///
    /// It costs what the dependent signals of this signal are. After want of memory the reason may be set, no further fold is
    /// open, and the folds are not to be used again.
    pub fn begin_abort(&mut self, s: u32, reason: u32) -> Result<Aborting, MemoryFault>
        ensures ticket { IfOk result (λ aborting. aborting.ticket ≡ length (open_of self.old)) }
        ensures marked { IfOk result (λ aborting. aborting.marked.items ≡ marked_by s self.old.signals) }
        ensures opened { OnOk result (standing self.new ≡ abort_begun s reason (standing self.old)) }
        ensures err { OnErr result (AbortLeaves s reason (standing self.old) (standing self.new)) }
    {
        let marked = self.signals.abort_mark(s, reason)?.into_signals();
        let left = Vec::from_slice(self.alloc, &marked)?;
        let ticket = self.begin(Stage::Between, Rest::Aborts(left.into_iter()))?;
        Ok(Aborting { ticket, marked })
    }

    /// Begins a change of the priority of a signal, which was given one, and answers its ticket (Prioritized Task Scheduling, "The
    /// TaskSignal Interface": signal priority change). The priority is set at once, and its first step tells so.
    ///
    /// [`ChangeFault::Is`] exactly while a change of this signal is in progress. Else none exactly where this is its priority
    /// already. Nothing changes where no change begins, for want of memory too. It costs what the followers of this signal are.
    pub fn begin_change(&mut self, s: u32, p: Priority) -> Result<Option<u64>, ChangeFault>
        requires { HasPriority s self.old.prios }
        ensures answer { IsChange s p (standing self.old) result }
        ensures after { ChangeLeaves s p (standing self.old) result (standing self.new) }
    {
        self.open_folds.reserve(1)?;
        let mut levels = VecDeque::with_capacity(self.alloc, 1)?;
        let chain = self.prios.len().saturating_sub(1);
        let Some(moved) = self.prios.change(s, p)? else {
            return Ok(None);
        };
        levels.push_front_reserved(Level {
            signal: s,
            followers: moved.dependents.into_iter(),
            chain,
        });
        let ticket = self.open_folds.len() as u64;
        self.open_folds.push_reserved(Fold {
            stage: Stage::ToTell {
                signal: s,
                before: moved.before,
            },
            rest: Rest::Changes(Changes {
                priority: p,
                levels,
            }),
        });
        Ok(Some(ticket))
    }

    /// The next step of the fold that was begun last of those that are open, by its ticket.
    ///
    /// [`FoldStep::Finished`] exactly where it has nothing left to visit, and then the ticket is closed. The number of algorithms,
    /// listeners and changes that it has still to visit falls at each other step.
    ///
    /// It costs what it looks at, and look-ups: the algorithms or followers of a signal that it comes to, the listeners of a
    /// dispatch that it begins, and what it passes over. After want of memory the ticket is closed, each signal has the priority that
    /// it had, and the folds are not to be used again.
    pub fn step(&mut self, ticket: u64) -> Result<FoldStep, MemoryFault>
        requires { IsInnermost ticket (open_of self.old) }
        ensures step { IfOk result (λ step. (step, standing self.new) ≡ stepped (standing self.old)) }
        ensures falls { IfOk result (λ step. Falls step (standing self.old) (standing self.new)) }
        ensures listeners { self.new.listeners ≡ self.old.listeners }
        ensures err { OnErr result (open_of self.new ≡ outer (open_of self.old)) }
        ensures prios { OnErr result (at_rest self.new.prios ≡ at_rest self.old.prios) }
    {
        let Some(fold) = self.open_folds.pop() else {
            return Ok(FoldStep::Finished);
        };
        let is_innermost = self.open_folds.len() as u64 == ticket;
        prove!(is_innermost);
        let next = fold.advance(
            self.alloc,
            &self.listeners,
            &mut self.signals,
            &mut self.prios,
        )?;
        match next {
            Some(next) => {
                self.open_folds.push_reserved(next.fold);
                Ok(next.step)
            }
            None => Ok(FoldStep::Finished),
        }
    }

    /// Whether the innermost fold calls listeners, false with no fold open. Takes no memory.
    pub fn is_calling(&self) -> bool
        ensures { result ≡ calls_in (open_of self.now) }
    {
        match self.open_folds.last() {
            Some(fold) => fold.stage.is_calling(),
            None => false,
        }
    }

    /// No listener, no signal and no open fold is left, and the priorities stay. Takes no memory.
    pub fn keep_priorities(&mut self)
        ensures listeners { self.new.listeners ≡ [] }
        ensures signals { self.new.signals ≡ [] }
        ensures prios { self.new.prios ≡ self.old.prios }
        ensures open { open_of self.new ≡ [] }
    {
        self.listeners = Listeners::new(self.alloc);
        self.signals = Signals::new(self.alloc);
        self.open_folds.clear();
    }

    // Opens a fold, with its ticket. For want of memory nothing changes.
    fn begin(&mut self, stage: Stage, rest: Rest) -> Result<u64, MemoryFault>
        ensures ticket { IfOk result (λ ticket. ticket ≡ length (open_of self.old)) }
        ensures parts { parts_of self.new ≡ parts_of self.old }
        ensures opened { OnOk result (open_of self.new ≡ fold_of stage rest ∷ open_of self.old) }
        ensures err { OnErr result (open_of self.new ≡ open_of self.old) }
    {
        let ticket = self.open_folds.len() as u64;
        self.open_folds.push(Fold { stage, rest })?;
        Ok(ticket)
    }
}
