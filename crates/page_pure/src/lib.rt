//! The operations that need nothing of a page: they work on values alone.
//!
//! What each answers stands in `lang_meaning`, as `pure_answer`.
#![tactic(auto)]

mod answers;
mod faults;
mod functions;
mod giving;
mod texts;

ghost use Rattle.std.specs.Prelude.{◌≡◌, length, map, IfOk, IfSome};
ghost use Rattle.lang_meaning.specs.PureOperations.{pure_answer};
ghost use Rattle.lang_ast.specs.Operations.{count_of};
ghost use Rattle.lang_ast.specs.Steps.{seen_step, AllNumbered, StepIsNumbered};
ghost use Rattle.page_values.specs.Seen.{seen};
ghost use Rattle.page_pure.specs.PureSteps.{IsPureStepOf};

use answers::{argument, both};
use faults::{fault_name, fault_text, make_fault};
use functions::{bind_more, count, did_timeout, push_item, push_onto};
pub use giving::{gives_value, known_value};
use lang_ast::{HostStep, Op};
use page_values::{FunNames, MemoryFault, Value};
use std::alloc::Global;
use texts::{kind, spelling};

/// What an operation on values alone answers to these arguments, as many as it has. `None` exactly for any other operation.
///
/// A function that an argument names has a number below the number of names, and so has one that the answer names.
pub fn pure_op(
    alloc: Global,
    op: Op,
    args: &Vec<Value>,
    names: &FunNames,
) -> Result<Option<HostStep>, MemoryFault>
    requires count { length args.now.items ≡ count_of op }
    requires numbered { AllNumbered (length names.now) (map seen args.now.items) }
    ensures answer { IsPureStepOf result (pure_answer names.now op (map seen args.now.items)) }
    ensures numbered { IfOk result (λ step. IfSome step (λ s. StepIsNumbered (length names.now) (seen_step s))) }
{
    answer(alloc, op, args, names)
}

/// The same with the arguments handed over. `push` keeps the list that it is given, and puts the value at its end. No item is copied
/// there.
pub fn pure_op_of(
    alloc: Global,
    op: Op,
    args: Vec<Value>,
    names: &FunNames,
) -> Result<Option<HostStep>, MemoryFault>
    requires count { length args.items ≡ count_of op }
    requires numbered { AllNumbered (length names.now) (map seen args.items) }
    ensures answer { IsPureStepOf result (pure_answer names.now op (map seen args.items)) }
    ensures numbered { IfOk result (λ step. IfSome step (λ s. StepIsNumbered (length names.now) (seen_step s))) }
{
    match op {
        Op::Push => {
            let (list, value) = both(args);
            Ok(Some(push_onto(alloc, list, value)?))
        }
        Op::Len => Ok(Some(count(alloc, argument(&args, 0)))),
        _ => pure_op(alloc, op, &args, names),
    }
}

fn answer(
    alloc: Global,
    op: Op,
    args: &Vec<Value>,
    names: &FunNames,
) -> Result<Option<HostStep>, MemoryFault>
    requires count { length args.now.items ≡ count_of op }
    requires numbered { AllNumbered (length names.now) (map seen args.now.items) }
    ensures { IsPureStepOf result (pure_answer names.now op (map seen args.now.items)) }
{
    let step = match op {
        Op::TextOf => spelling(alloc, argument(args, 0), names)?,
        Op::KindOf => kind(alloc, argument(args, 0))?,
        Op::Len => count(alloc, argument(args, 0)),
        Op::Push => push_item(alloc, argument(args, 0), argument(args, 1))?,
        Op::Bind => bind_more(alloc, argument(args, 0), argument(args, 1))?,
        Op::MakeFault => make_fault(alloc, argument(args, 0))?,
        Op::FaultNameOf => fault_name(alloc, argument(args, 0))?,
        Op::FaultTextOf => fault_text(alloc, argument(args, 0))?,
        Op::DidTimeout => did_timeout(alloc, argument(args, 0)),
        _ => return Ok(None),
    };
    Ok(Some(step))
}
