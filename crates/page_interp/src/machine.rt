//! The machine of a script, and how its calls end.

use crate::code::Code;
use crate::exit::Store;
use page_values::Value;
use std::marker::Model;

/// How a call ended.
#[derive(Drop)]
pub enum Ran {
    Value(Value),
    Throw(Value),
    /// A unit of fuel was needed, and none was left.
    Fuel,
}

/// Why a call was given up. The machine is not used again after it.
#[derive(Drop)]
pub enum Stopped<S> {
    /// The host refused, with this stop.
    Host(S),
    OutOfMemory,
}

/// The machine of one script, with its global variables.
///
/// A unit of fuel is taken for each call of a function (the script's own body counts as one), for
/// each entry into the block of a `while`, and for each call of `busy` before the host is asked.
#[derive(Drop)]
pub struct Machine<'p> {
    pub(crate) code: Code<'p>,
    pub(crate) store: Store,
}

impl<'p> Model for Machine<'p> {
    ghost use Rattle.std.specs.Prelude.{IsTrue};
    ghost use Rattle.page_interp.specs.MachineNow.{MachineNow, coded_machine};
    ghost use Rattle.page_interp.specs.Variables.{globals_of, globals_are_numbered};

    ghost Value = { MachineNow };

    ghost coded = { coded_machine };

    ghost view = { λ m. record { script = m.code; globals = globals_of m.code m.store } };

    ghost invariant = { λ m. IsTrue (globals_are_numbered m.code m.store) };
}
