//! Deep scripts: as many open calls as there may be, with brackets around each inner call.

use crate::nested_host::Nested;
use lang_ast::Program;
use lang_names::resolve;
use lang_parse::parse;
use lang_tokens::tokens;
use page_interp::{Machine, Ran};
use page_values::{Func, Items, Value, as_int};
use std::alloc::Global;
use std::test::Fail;

// A script whose function calls itself 254 times, and gives how often it did: the script's own body and the calls of the
// function are 256 open calls. Brackets stand before and behind each side of the sum.
fn script(alloc: Global, left: usize, right: usize) -> Result<Vec<u8>, Fail> {
    let mut text = b"fn r(n) { if (n == 0) { return 0; } return ".to_vec(alloc)?;
    brackets(&mut text, left, b'(')?;
    text.extend_from_slice(b"1")?;
    brackets(&mut text, left, b')')?;
    text.extend_from_slice(b" + ")?;
    brackets(&mut text, right, b'(')?;
    text.extend_from_slice(b"r(n - 1)")?;
    brackets(&mut text, right, b')')?;
    text.extend_from_slice(b"; } return r(254);")?;
    Ok(text)
}

fn brackets(text: &mut Vec<u8>, count: usize, bracket: u8) -> Result<(), Fail> {
    for _ in 0..count {
        text.push(bracket)?;
    }
    Ok(())
}

// The integer that a script's own body returns.
fn returned(alloc: Global, text: &[u8]) -> Result<Option<i64>, Fail> {
    let tokens = tokens(alloc, text)?;
    let program = resolve(alloc, parse(alloc, &tokens)?)?;
    let mut host = Nested::new(alloc, program.function_count(), 0);
    let mut machine = Machine::new(alloc, &program)?;
    let body = Func {
        function: program.function_count(),
        bound: Items::new(Vec::new(alloc)),
    };
    let mut fuel = 1_000;
    match machine.call(&mut host, &body, Vec::new(alloc), &mut fuel) {
        Ok(Ran::Value(value)) => Ok(as_int(&value)),
        _ => Ok(None),
    }
}

#[test]
fn open_calls_stand_deep_in_brackets(rt: HostRuntime) -> Result<(), Fail> {
    for (left, right) in [(0, 60), (50, 50)] {
        let text = script(rt.alloc(), left, right)?;
        assert_eq!(rt;
            returned(rt.alloc(), text.as_slice())?,
            Some(254),
            "{left} and {right}"
        );
    }
    Ok(())
}
