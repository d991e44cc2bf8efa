//! A tree whose names are resolved.

ghost use Rattle.std.specs.Prelude.{◌≡◌, IfOk, Err};
ghost use Rattle.std.specs.Option.{option_map};
ghost use Rattle.lang_ast.specs.NameFaults.{IsResolved};
ghost use Rattle.lang_ast.specs.Names.{occurrences};
ghost use Rattle.lang_ast.specs.Programs.{program_of};
ghost use Rattle.lang_ast.specs.Seen.{seen_tree};
ghost use Rattle.lang_ast.specs.SeenProgram.{seen_program};
ghost use Rattle.lang_names.specs.Told.{seen_fault, IsTold, IsFirstFaultOf};
ghost use Rattle.lang_names.specs.declared.fault.NameFault.{NameFault};

use crate::checking::first_fault;
use crate::collecting::occurrences;
use crate::fault::{NameFault, ResolveFault};
use lang_ast::{Program, Tree};
use std::alloc::{AllocError, Global};

fn first_fault_of(alloc: Global, tree: &Tree) -> Result<Option<NameFault>, AllocError>
    ensures { IfOk result (λ found. IsTold (occurrences (seen_tree tree.now)) (option_map seen_fault found)) }
{
    let all = occurrences(alloc, tree)?;
    first_fault(alloc, &all)
}

/// The program of a tree where no name has a fault; else the first fault in the order of the text.
///
/// A name that is given is at fault where it is given twice; one that is used, where it is unknown there, or where it is
/// an operation's and is called with another number of arguments. Want of memory may come in any case.
pub fn resolve(alloc: Global, tree: Tree) -> Result<Program, ResolveFault>
    ensures program { IfOk result (λ p. seen_program p ≡ program_of (seen_tree tree)) }
    ensures resolved { IfOk result (λ _. IsResolved (seen_tree tree)) }

    // The fault is want of memory or this one.
    ensures refused { (fault : NameFault) → result ≡ Err (ResolveFault.Is fault) → IsFirstFaultOf tree fault }
{
    match first_fault_of(alloc, &tree)? {
        Some(fault) => Err(ResolveFault::Is(fault)),
        None => Ok(Program::new(alloc, tree)?),
    }
}
