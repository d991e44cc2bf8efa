//! A host with a log, whose operations are bounded in number, and of which one calls its argument twice.

use lang_ast::{Host, HostStep, Op, Outcome};
use page_values::{FaultName, Value, fault, function_value};
use std::alloc::Global;

/// The host does no more operations, or memory is wanting.
#[derive(Clone, Copy, PartialEq, Eq, Debug)]
pub struct Refused;

/// A callback that is pending, and whether it is to be called once more.
#[derive(Clone, Copy)]
pub struct Pending {
    pub function: u32,
    pub ticket: u64,
    pub again: bool,
}

/// The host. `queueMicrotask` calls its argument at once, and again where it gave a value; `log` keeps its argument; any
/// other operation answers unit.
#[derive(Drop)]
pub struct Nested {
    pub alloc: Global,
    /// How many functions the script has.
    pub functions: u32,
    /// How many operations are done before the host refuses.
    pub operations: u64,
    pub logged: Vec<Value>,
    /// The callbacks that are pending, the last one at the end.
    pub pending: Vec<Pending>,
    pub refusals: u64,
    pub last: Option<Refused>,
}

impl Nested {
    ghost use Rattle.std.specs.Prelude.{◌≡◌};

    /// A host that does so many operations.
    pub fn new(alloc: Global, functions: u32, operations: u64) -> Nested
        ensures { result.functions ≡ functions }
    {
        Nested {
            alloc,
            functions,
            operations,
            logged: Vec::new(alloc),
            pending: Vec::new(alloc),
            refusals: 0,
            last: None,
        }
    }
}

impl Host for Nested {
    ghost use Rattle.std.specs.Prelude.{◌^◌, reverse};
    ghost use Rattle.page_rows.specs.NestedHost.{Told, Leaves, told_by, nested_rules, tickets_of, times_left};

    type Stop = Refused;

    ghost Told = { Told };

    ghost now = { λ h. record {
      told = told_by h.functions h.operations h.pending.items;
      tickets = tickets_of (reverse h.pending.items);
      room = 2 ^ 64;
      functions = h.functions;
      refusals = h.refusals;
      last_stop = h.last;
    } };

    ghost rules = { nested_rules };

    ghost leaves = { Leaves };

    ghost left = { times_left };

    fn op(&mut self, op: Op, mut args: Vec<Value>) -> Result<HostStep, Refused> {
        if self.operations == 0 {
            self.refusals = self.refusals.saturating_add(1);
            self.last = Some(Refused);
            return Err(Refused);
        }
        self.operations -= 1;
        let argument = args.pop();
        match op {
            Op::QueueMicrotask => match argument {
                Some(Value::Fun(function)) => {
                    let ticket = self.pending.len() as u64;
                    let pending = Pending {
                        function: function.function,
                        ticket,
                        again: true,
                    };
                    if self.pending.push(pending).is_err() {
                        self.refusals = self.refusals.saturating_add(1);
                        self.last = Some(Refused);
                        return Err(Refused);
                    }
                    Ok(HostStep::Invoke {
                        callback: function_value(self.alloc, function.function),
                        args: Vec::new(self.alloc),
                        ticket,
                    })
                }
                _ => Ok(HostStep::Throw(fault(self.alloc, FaultName::TypeError))),
            },
            Op::Log => {
                if let Some(value) = argument {
                    if self.logged.push(value).is_err() {
                        self.refusals = self.refusals.saturating_add(1);
                        self.last = Some(Refused);
                        return Err(Refused);
                    }
                }
                Ok(HostStep::Value(Value::Unit))
            }
            _ => Ok(HostStep::Value(Value::Unit)),
        }
    }

    fn resume(&mut self, ticket: u64, outcome: Outcome) -> Result<HostStep, Refused> {
        let last = self.pending.pop();
        let value = match outcome {
            Outcome::Value(value) => value,
            Outcome::Throw(value) => return Ok(HostStep::Throw(value)),
        };
        let Some(pending) = last else {
            return Ok(HostStep::Value(value));
        };
        if !pending.again || pending.function >= self.functions {
            return Ok(HostStep::Value(value));
        }
        let next = Pending {
            again: false,
            ..pending
        };
        if self.pending.push(next).is_err() {
            self.refusals = self.refusals.saturating_add(1);
            self.last = Some(Refused);
            return Err(Refused);
        }
        Ok(HostStep::Invoke {
            callback: function_value(self.alloc, pending.function),
            args: Vec::new(self.alloc),
            ticket,
        })
    }
}
