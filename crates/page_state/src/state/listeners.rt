//! Listeners (DOM, "Interface EventTarget").
ghost use Rattle.std.specs.Prelude.{◌≡◌, IfErr, IfOk, OnOk};
ghost use Rattle.page_model.specs.State.{last_registration};
ghost use Rattle.page_model.specs.Operations as model;
ghost use Rattle.page_events.specs.Dispatching.{next_listening, behind_next};
ghost use Rattle.page_events.specs.Seen.{seen_target};
ghost use Rattle.trace_text.specs.declared.lines.NoLine.TheVariants.{OutOfMemory};
ghost use Rattle.page_state.specs.PageActs.{changed_by, read_by, IsWanted};
ghost use Rattle.page_state.specs.Makes.{Makes};
ghost use Rattle.page_state.specs.JobActs.{hears_at, listeners_at};
ghost use Rattle.page_state.specs.SignalActs.{listening, unlistened, listener_dropped};

use super::PageState;
use page_hosts::HostPort;
use page_script::{Callbacks, Registration, Role};
use page_signals::{Dispatch, Target};
use page_values::{Func, Str};
use std::sync::ledger::Ledger;
use trace_text::{Event, Lines, NoLine, RegKind};

impl<P: HostPort, M: Ledger> PageState<P, M> {
    /// A listener is registered, with its line, and added behind all others. Answers the number of its registration.
    pub fn listener_added<L: Lines>(
        &mut self,
        target: Target,
        name: &Str,
        callback: Func,
        lines: &mut L,
    ) -> Result<u32, NoLine>
        ensures does { Makes L.Lines self.old lines.old (hears_at target name.now callback) result self.new lines.new }
        ensures number { IfOk result (λ r. r ≡ read_by last_registration self.new) }
    {
        let registration = Registration {
            role: Role::Of(RegKind::Listener),
            callbacks: Callbacks::First(callback),
            timer_id: 0,
            promise: 0,
            signal: None,
            finally: false,
        };
        let r = self.register_as(RegKind::Listener, registration, lines)?;
        self.listen(target, name, r)?;
        Ok(r)
    }

    /// A listener is removed, with its line. A number that is no listener's does nothing, as none of 2^32 or more is.
    pub fn listener_removed<L: Lines>(&mut self, number: u64, lines: &mut L) -> Result<(), NoLine>
        ensures { Makes L.Lines self.old lines.old (model.listener_removed number) result self.new lines.new }
    {
        if !self.signals.is_listening_number(number) {
            return Ok(());
        }
        match u32::try_from(number) {
            Ok(r) => self.drop_listener(r, lines),
            Err(_) => Err(NoLine::OutOfMemory),
        }
    }

    // A registration listens no more, with its line.
    fn drop_listener<L: Lines>(&mut self, r: u32, lines: &mut L) -> Result<(), NoLine>
        ensures { Makes L.Lines self.old lines.old (listener_dropped r) result self.new lines.new }
    {
        self.unlisten(r);
        self.emit(Event::Drop { r: r as u64 }, lines)
    }

    /// Begins a dispatch that a task runs, to the listeners of this target and name as they are now (DOM, "Dispatching events").
    ///
    /// The one error is want of memory.
    pub fn begin_dispatch(&self, target: Target, name: &Str) -> Result<Dispatch, NoLine>
        ensures listeners { IfOk result (λ dispatch. dispatch ≡ read_by (listeners_at target name.now) self.now) }
        ensures memory { IfErr result (λ why. why ≡ OutOfMemory) }
    {
        match self.signals.begin(target, name) {
            Ok(dispatch) => Ok(dispatch),
            Err(_) => Err(NoLine::OutOfMemory),
        }
    }

    /// The next listener of such a dispatch: the first one left that was not removed since it began, none exactly where it is over.
    /// Takes no memory.
    pub fn next_listener(&self, dispatch: &mut Dispatch) -> Option<u32>
        ensures registration { result ≡ read_by (λ p. next_listening p.listeners dispatch.old) self.now }
        ensures left { dispatch.new ≡ read_by (λ p. behind_next p.listeners dispatch.old) self.now }
    {
        self.signals.next(dispatch)
    }

    // A registration listens from now on.
    fn listen(&mut self, target: Target, name: &Str, r: u32) -> Result<(), NoLine>
        ensures added { OnOk result (self.new ≡ changed_by (listening (seen_target target) name.now r) self.old) }
        ensures memory { IfErr result (λ why. IsWanted why self.old self.new) }
    {
        match self.signals.listen(target, name, r) {
            Ok(()) => Ok(()),
            Err(_) => Err(NoLine::OutOfMemory),
        }
    }

    // A registration listens no more. Takes no memory.
    fn unlisten(&mut self, r: u32)
        ensures { self.new ≡ changed_by (unlistened r) self.old }
    {
        let _ = self.signals.unlisten(r);
    }
}
