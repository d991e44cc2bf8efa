//! The handlers that a script gives promises.

ghost use Rattle.std.specs.Prelude.{◌≡◌, Option, None, true, false, IfErr, IfOk};
ghost use Rattle.std.specs.Option.{option_map};
ghost use Rattle.page_parts.specs.Kinds.{func_in};
ghost use Rattle.page_values.specs.Seen.{seen, seen_func};
ghost use Rattle.page_model.specs.PagePromises.{last_promise};
ghost use Rattle.page_model.specs.Operations.{finally_made};
ghost use Rattle.page_script.specs.Seen.{registration_seen};
ghost use Rattle.trace_text.specs.declared.lines.NoLine.TheVariants.{OutOfMemory};
ghost use Rattle.page_state.specs.PageActs.{read_by};
ghost use Rattle.page_state.specs.Makes.{Makes};
ghost use Rattle.page_state.specs.CodeValues.{then_made, handlers_made, handled, then_with};

use super::PageState;
use page_hosts::HostPort;
use page_script::{Callbacks, Reaction, Registration, Role};
use page_values::{Func, Value};
use std::alloc::Global;
use std::sync::ledger::Ledger;
use trace_text::{Lines, NoLine, RegKind};

impl<P: HostPort, M: Ledger> PageState<P, M> {
    /// Makes the derived promise and the registration of a `then`, with its line, and gives a promise the reaction (ECMA-262,
    /// "Promise.prototype.then"). A handler that is no function is absent. Answers the number of the derived promise.
    pub fn then_made<L: Lines>(
        &mut self,
        p: u32,
        fulfilled: Value,
        rejected: Value,
        lines: &mut L,
    ) -> Result<u32, NoLine>
        ensures does { Makes L.Lines self.old lines.old (then_made p fulfilled rejected) result self.new lines.new }
        ensures number { IfOk result (λ n. n ≡ read_by last_promise self.new) }
    {
        let first = function_of(fulfilled);
        let second = function_of(rejected);
        let registration = handlers(self.alloc, first, second, false)?;
        self.handlers_made(p, registration, lines)
    }

    /// Makes the derived promise and the registration of a `finally`, with its line, and gives a promise the reaction
    /// (ECMA-262, "Promise.prototype.finally"). A handler that is no function is absent. Answers the number of the derived
    /// promise.
    pub fn finally_made<L: Lines>(
        &mut self,
        p: u32,
        handler: Value,
        lines: &mut L,
    ) -> Result<u32, NoLine>
        ensures does { Makes L.Lines self.old lines.old (finally_made p (seen handler)) result self.new lines.new }
        ensures number { IfOk result (λ n. n ≡ read_by last_promise self.new) }
    {
        let second_handler = self.copied(&handler)?;
        let first = function_of(handler);
        let second = function_of(second_handler);
        let registration = handlers(self.alloc, first, second, true)?;
        self.handlers_made(p, registration, lines)
    }

    // Makes a derived promise and a registration of handlers, with its line, gives a promise the reaction, and answers the number
    // of the derived promise.
    fn handlers_made<L: Lines>(
        &mut self,
        p: u32,
        registration: Registration,
        lines: &mut L,
    ) -> Result<u32, NoLine>
        ensures does { Makes L.Lines self.old lines.old (handlers_made p registration) result self.new lines.new }
        ensures number { IfOk result (λ n. n ≡ read_by last_promise self.new) }
    {
        let into = self.new_promise()?;
        self.handle(p, registration, into, lines)?;
        Ok(into)
    }

    // Makes a registration of handlers, with its line, and gives a promise the reaction, into the last promise.
    fn handle<L: Lines>(
        &mut self,
        p: u32,
        registration: Registration,
        into: u32,
        lines: &mut L,
    ) -> Result<(), NoLine>
        requires { into ≡ read_by last_promise self.old }
        ensures does { Makes L.Lines self.old lines.old (handled p registration) result self.new lines.new }
        ensures kept { IfOk result (λ _. into ≡ read_by last_promise self.new) }
    {
        let r = self.register_as(RegKind::Then, registration, lines)?;
        let reaction = Reaction {
            registration: Some(r),
            into,
            state: self.scheduling(),
        };
        self.subscribe(p, reaction, lines)
    }
}

// The registration of handlers.
fn handlers(
    alloc: Global,
    first: Option<Func>,
    second: Option<Func>,
    finally: bool,
) -> Result<Registration, NoLine>
    ensures made { IfOk result (λ registration. registration_seen registration ≡ then_with first second finally) }
    ensures memory { IfErr result (λ why. why ≡ OutOfMemory) }
{
    match Callbacks::of_two(alloc, first, second) {
        Ok(callbacks) => Ok(Registration {
            role: Role::Of(RegKind::Then),
            finally,
            timer_id: 0,
            promise: 0,
            signal: None,
            callbacks,
        }),
        Err(_) => Err(NoLine::OutOfMemory),
    }
}

// The function that a value is.
fn function_of(value: Value) -> Option<Func>
    ensures { option_map seen_func result ≡ func_in (seen value) }
{
    match value {
        Value::Fun(function) => Some(function),
        _ => None,
    }
}
