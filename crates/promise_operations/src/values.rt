//! `log`, and the operations on values alone.

ghost use Rattle.std.specs.Prelude.{◌≡◌, length, map, IfOk};
ghost use Rattle.lang_ast.specs.Operations.{count_of};
ghost use Rattle.lang_ast.specs.Steps.{seen_step, AllNumbered, StepIsNumbered};
ghost use Rattle.page_values.specs.Seen.{seen};
ghost use Rattle.page_script.specs.Reports.{logged};
ghost use Rattle.page_model.specs.Invoke.{Ways};
ghost use Rattle.page_model.specs.Operations as model;
ghost use Rattle.page_model.specs.Operations.{operation};
ghost use Rattle.page_answers.specs.Serving.{Serves, ServesSilently};

use lang_ast::{HostStep, Op};
use page_answers::give_unit;
use page_hosts::HostPort;
use page_pure::pure_op_of;
use page_state::PageState;
use page_values::Value;
use std::sync::ledger::Ledger;
use trace_text::{Lines, NoLine};

/// `log`: writes the line of a value. It costs what the spelling of the value costs.
pub fn log<P: HostPort, M: Ledger, L: Lines>(
    page: &PageState<P, M>,
    value: Value,
    lines: &mut L,
) -> Result<HostStep, NoLine>
    ensures { Serves L.Lines page.now lines.old (model.does (logged (seen value))) result page.now lines.new }
{
    page.log(&value, lines)?;
    Ok(give_unit())
}

/// What an operation on values alone answers to its arguments. It does nothing to the page and writes no line. Any other operation
/// has no answer here, only an error. `push` copies no item of its list.
///
/// A function that an argument names has a number below the number of names, and so has one that the answer names.
pub fn pure_operation<P: HostPort, M: Ledger, L: Lines>(
    page: &PageState<P, M>,
    op: Op,
    args: Vec<Value>,
) -> Result<HostStep, NoLine>
    requires count { length args.items ≡ count_of op }
    requires numbered { AllNumbered (length page.now.script.names) (map seen args.items) }
    ensures answer { (w : Ways) → ServesSilently L.Lines page.now (operation w op (map seen args.items)) result page.now }
    ensures numbered { IfOk result (λ step. StepIsNumbered (length page.now.script.names) (seen_step step)) }
{
    let Ok(answer) = pure_op_of(page.alloc(), op, args, page.names()) else {
        return Err(NoLine::OutOfMemory);
    };
    let Some(step) = answer else {
        return Err(NoLine::OutOfMemory);
    };
    Ok(step)
}
