//! The operations that a script calls, by their names.

ghost use Rattle.std.specs.Prelude.{◌≡◌, false, IsTrue};
ghost use Rattle.lang_meaning.specs.HostSteps.{is_busy};
ghost use Rattle.lang_meaning.specs.OpNames.{op_named};
ghost use Rattle.page_interp.specs.OpIndex.{AreNamed};

use lang_ast::{Named, Op, operation_named};
use page_values::{MemoryFault, Str};
use std::alloc::Global;
use std::collections::BTreeMap;

/// Whether a host may know at once that it answers an operation with a value: some of those that work
/// on values alone.
pub fn may_be_known(op: Op) -> bool
    ensures { IsTrue result → is_busy op ≡ false }
{
    matches!(op, Op::KindOf | Op::Len | Op::Push)
}

/// What operations some names stand for. A name that is among them is found in a number of steps
/// that grows with the logarithm of how many there are, and any other one among the names of all
/// operations.
#[derive(Drop)]
pub struct Operations {
    ops: BTreeMap<Vec<u8>, Option<Op>>,
    ghost named: { AreNamed ops },
}

impl Operations {
    /// With these names.
    pub fn new(alloc: Global, names: &[&Named]) -> Result<Operations, MemoryFault> {
        let mut ops = BTreeMap::new(alloc);
        for &name in names {
            let key = Vec::from_slice(alloc, name.name.bytes())?;
            ops.insert(key, operation_named(&name.name))?;
        }
        Ok(Operations { ops })
    }

    /// The operation of this name.
    pub fn named(&self, name: &Str) -> Option<Op>
        ensures { result ≡ op_named name.now }
    {
        match self.ops.get(name.bytes()) {
            Some(op) => *op,
            None => operation_named(name),
        }
    }
}
