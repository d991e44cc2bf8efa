//! The script's part of a page: its state, its lines, its registrations and its calls.

ghost use Rattle.std.specs.Prelude.{◌≡◌, ◌+◌, ◌^◌, ◌<◌, ◌≤◌, ◌↔◌, length, IfOk, IfErr, IfSome, OnOk, IsTrue};
ghost use Rattle.page_parts.specs.Spelling.{spelled};
ghost use Rattle.page_values.specs.Seen.{seen, seen_func};
ghost use Rattle.page_values.specs.Written.{IsNumbered};
ghost use Rattle.page_model.specs.State as model;
ghost use Rattle.trace_text.specs.EventSeen.{event_seen};
ghost use Rattle.trace_text.specs.declared.lines.NoLine.TheVariants.{OutOfMemory};
ghost use Rattle.page_script.specs.ScriptActs.{read_by};
ghost use Rattle.page_script.specs.Seen.{registration_seen};
ghost use Rattle.page_script.specs.First.{IsFirst};
ghost use Rattle.page_script.specs.TimerIds.{first_with_id};
ghost use Rattle.page_script.specs.Calls.{Writes, LendsSeen, register_as, callback_at, with_registration};

mod calls;
mod combinators;
mod jobs;
mod promises;
mod running;
mod states;

use crate::callbacks::Callbacks;
use crate::combiner::Combining;
use crate::marked::Marked;
use crate::naming::is_numbered;
use crate::parts::{Moment, Post, Registration, Role, Run, SchedulingState};
use crate::registrations::Registrations;
use page_base::Micros;
use page_values::{FunNames, Func, Items, MemoryFault, Value, print};
use std::alloc::Global;
use std::marker::Model;
use trace_text::{Event, Lines, NoLine, Printed, RegKind, Stamped};

/// The part of a page in which the script's callbacks and promises live. It is seen as those fields of the model's page.
///
/// A call that writes lines stamps each with the time now. It answers `Failed` and `Differs` exactly where the lines answered
/// so in this call, and `OutOfMemory` also for want of memory of its own. After any `NoLine` the lines that were written are
/// the first ones of the call's lines, and the `PageScript` is not used again.
#[derive(Drop)]
pub struct PageScript {
    alloc: Global,
    run: Run,
    moment: Moment,
    performing: bool,
    names: FunNames,
    // The innermost call is the last one.
    calls: Vec<u32>,
    registrations: Registrations,
    states: Vec<SchedulingState>,
    posts: Vec<Post>,
    promises: Marked,
    combinators: Vec<Combining>,
}

impl Model for PageScript {
    ghost use Rattle.std.specs.Prelude.{map, reverse};
    ghost use Rattle.page_script.specs.Script.{Script};
    ghost use Rattle.page_script.specs.Codes.{coded_script};
    ghost use Rattle.page_script.specs.Seen.{state_seen, post_seen};
    ghost use Rattle.page_script.specs.Leading.{combining_seen};

    ghost Value = { Script };

    ghost coded = { coded_script };

    ghost view = { λ a. record {
      form = a.run.form;
      trace = a.run.trace;
      now = a.moment.at.0;
      turns = a.run.turns;
      names = a.names;
      calls = reverse a.calls.items;
      level = a.moment.level;
      scheduling = a.moment.state;
      performing = a.performing;
      registrations = a.registrations;
      script_promises = a.promises.script_promises;
      notices = a.promises.notices;
      combinators = map combining_seen a.combinators.items;
      elements = a.promises.elements;
      scheduling_states = map state_seen a.states.items;
      posts = map post_seen a.posts.items;
    } };
}

impl PageScript {
    /// The script's part of a page before its first turn, in a form of the run and a form of its trace: the script itself is
    /// the one registration. The one error is want of memory.
    pub fn new(
        alloc: Global,
        form: u32,
        trace: u32,
        names: FunNames,
    ) -> Result<PageScript, MemoryFault>
        requires { length names < 2 ^ 32 }
        ensures { IfOk result (IsFirst form trace names) }
    {
        let script = Func {
            function: names.names().len() as u32,
            bound: Items::new(Vec::new(alloc)),
        };
        let mut registrations = Registrations::new(alloc);
        registrations.push(Registration {
            role: Role::Script,
            callbacks: Callbacks::First(script),
            timer_id: 0,
            promise: 0,
            signal: None,
            finally: false,
        })?;
        Ok(PageScript {
            alloc,
            run: Run {
                form,
                trace,
                turns: 0,
            },
            moment: Moment {
                level: 0,
                state: None,
                at: Micros(0),
            },
            performing: false,
            names,
            calls: Vec::new(alloc),
            registrations,
            states: Vec::new(alloc),
            posts: Vec::new(alloc),
            promises: Marked::new(alloc),
            combinators: Vec::new(alloc),
        })
    }

    /// Writes the line of an event, at the time now.
    pub fn emit<L: Lines>(&self, event: Event, lines: &mut L) -> Result<(), NoLine>
        ensures { Writes L.keeping L.seen self.now lines.old (model.emit (event_seen event)) result self.now lines.new }
    {
        lines.emit(&Stamped {
            time: self.moment.at,
            event,
        })
    }

    /// Makes a registration, with its line, and answers its number, which has to be below 2^32. Registrations are counted
    /// from 1.
    pub fn register<L: Lines>(
        &mut self,
        kind: RegKind,
        registration: Registration,
        lines: &mut L,
    ) -> Result<u32, NoLine>
        requires { length self.old.registrations + 1 < 2 ^ 32 }
        ensures does { Writes L.keeping L.seen self.old lines.old (register_as kind registration) result self.new lines.new }
        ensures number { IfOk result (λ r. r ≡ length self.old.registrations + 1) }
    {
        let by = self.caller();
        let r = self.keep(registration)?;
        self.emit(
            Event::Reg {
                r: r as u64,
                kind,
                by,
            },
            lines,
        )?;
        Ok(r)
    }

    /// A registration that was made. Takes no memory.
    pub fn registration(&self, r: u32) -> &Registration
        requires counted { 0 < r }
        requires made { r ≤ length self.now.registrations }
        ensures { registration_seen result.now ≡ read_by (λ p. model.the_registration p r) self.now }
    {
        self.registrations.get(r)
    }

    /// The function that a registration calls: its second callback, or the first. None exactly where there is none. Takes no
    /// memory.
    pub fn callback(&self, r: u32, second: bool) -> Option<&Func>
        requires counted { 0 < r }
        requires made { r ≤ length self.now.registrations }
        ensures { LendsSeen seen_func result (read_by (callback_at r second) self.now) }
    {
        let registration = self.registration(r);
        if second {
            registration.callbacks.second()
        } else {
            registration.callbacks.first()
        }
    }

    /// How many registrations were ever made. Takes no memory.
    pub fn registered(&self) -> usize
        ensures { result ≡ length self.now.registrations }
    {
        self.registrations.len()
    }

    /// Whether a registration with this number was made. Takes no memory.
    pub fn is_registered(&self, r: u32) -> bool
        ensures { IsTrue result ↔ ((0 < r) × (r ≤ length self.now.registrations)) }
    {
        r > 0 && r as usize <= self.registrations.len()
    }

    /// The first registration that has this timer id; the id 0 is that of those with no timer. None exactly where there is
    /// none. Takes no memory. It costs a look-up, whatever there is.
    pub fn registration_with_timer_id(&self, id: u32) -> Option<u32>
        ensures first { result ≡ read_by (λ p. first_with_id id p.registrations) self.now }
        ensures made { IfSome result (λ r. (0 < r) × (r ≤ length self.now.registrations)) }
    {
        self.registrations.first_with_id(id)
    }

    /// Whether each function that a value names has a name here. Takes no memory, and costs at most the weight of the value.
    pub fn is_numbered(&self, value: &Value) -> bool
        ensures { IsTrue result ↔ IsNumbered (length self.now.names) (seen value.now) }
    {
        is_numbered(value, self.names.names().len())
    }

    /// The names of the script's functions. Takes no memory.
    pub fn names(&self) -> &FunNames
        ensures { result.now ≡ self.now.names }
    {
        &self.names
    }

    // The registration of the innermost open call, which a trace of form 2 tells.
    fn caller(&self) -> Option<u64>
        ensures { result ≡ read_by model.caller self.now }
    {
        if self.run.trace != 2 {
            return None;
        }
        match self.calls.last() {
            Some(r) => Some(*r as u64),
            None => Some(0),
        }
    }

    // Keeps a registration, and answers its number.
    fn keep(&mut self, registration: Registration) -> Result<u32, NoLine>
        requires { length self.old.registrations + 1 < 2 ^ 32 }
        ensures number { IfOk result (λ r. r ≡ length self.old.registrations + 1) }
        ensures memory { IfErr result (λ why. why ≡ OutOfMemory) }
        ensures kept { OnOk result (self.new ≡ with_registration registration self.old) }
    {
        match self.registrations.push(registration) {
            Ok(r) => Ok(r),
            Err(_) => Err(NoLine::OutOfMemory),
        }
    }

    // The spelling of a value.
    fn printed(&self, value: &Value) -> Result<Printed, NoLine>
        requires { IsNumbered (length self.now.names) (seen value.now) }
        ensures spelling { IfOk result (λ v. v ≡ spelled self.now.names (seen value.now)) }
        ensures memory { IfErr result (λ why. why ≡ OutOfMemory) }
    {
        match printed(self.alloc, value, &self.names) {
            Ok(v) => Ok(v),
            Err(_) => Err(NoLine::OutOfMemory),
        }
    }
}

// The spelling of a value, by the names of functions.
fn printed(alloc: Global, value: &Value, names: &FunNames) -> Result<Printed, MemoryFault>
    requires { IsNumbered (length names.now) (seen value.now) }
    ensures { IfOk result (λ v. v ≡ spelled names.now (seen value.now)) }
{
    let mut spelling = Vec::new(alloc);
    print(alloc, value, names, &mut spelling)?;
    Ok(Printed::new(spelling))
}
