//! How a part of a run is left, and what a run changes.

ghost use Rattle.std.specs.Prelude.{◌≡◌};
ghost use Rattle.page_interp.specs.declared.exit.Exit.TheVariants.{OutOfMemory};

use page_values::{MemoryFault, Value};
use std::alloc::{AllocError, Global};

/// Why an expression has no value, or a statement is not done.
#[derive(Drop)]
pub enum Exit<S> {
    Throw(Value),
    Return(Value),
    /// A unit of fuel was needed, and none was left.
    Fuel,
    /// The host refused.
    Host(S),
    OutOfMemory,
}

impl<S> From<AllocError> for Exit<S> {
    ghost from_gives = { λ _ x. x ≡ OutOfMemory };

    fn from(_: AllocError) -> Self {
        Exit::OutOfMemory
    }
}

impl<S> From<MemoryFault> for Exit<S> {
    ghost from_gives = { λ _ x. x ≡ OutOfMemory };

    fn from(_: MemoryFault) -> Self {
        Exit::OutOfMemory
    }
}

/// What a run changes besides the locals and the host: the values of the global variables, and the
/// units of fuel left.
#[derive(Drop)]
pub struct Store {
    pub globals: Vec<Value>,
    pub fuel: u64,
}

/// A store that holds nothing. Takes no memory.
pub fn no_store(alloc: Global) -> Store {
    Store {
        globals: Vec::new(alloc),
        fuel: 0,
    }
}
