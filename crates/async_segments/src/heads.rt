//! Writes the heads of functions.

ghost use Rattle.std.specs.Prelude.{map};
ghost use Rattle.lang_ast.specs.Seen.{seen_name};
ghost use Rattle.lang_parse.specs.Grammar.{names_spelling};
ghost use Rattle.async_segments.specs.Written.{Writes};
ghost use Rattle.async_segments.specs.OfCode.{head_of};

use crate::written::{Written, between, own_name, sign, word};
use lang_ast::{Function, Named};
use std::alloc::{AllocError, Global};

/// [name {"," name}]
fn write_parameters(
    alloc: Global,
    parameters: &Vec<Named>,
    into: &mut Vec<Written>,
) -> Result<(), AllocError>
    ensures { Writes result into.old into.new (names_spelling (map seen_name parameters.now.items)) }
{
    let mut is_first = true;
    for parameter in parameters {
        between(alloc, is_first, b",", into)?;
        own_name(alloc, parameter, into)?;
        is_first = false;
    }
    Ok(())
}

/// "fn" name "(" [name {"," name}] ")"
pub(crate) fn write_head(
    alloc: Global,
    function: &Function,
    into: &mut Vec<Written>,
) -> Result<(), AllocError>
    ensures { Writes result into.old into.new (head_of function.now) }
{
    word(alloc, b"fn", into)?;
    own_name(alloc, &function.name, into)?;
    sign(alloc, b"(", into)?;
    write_parameters(alloc, &function.parameters, into)?;
    sign(alloc, b")", into)
}
