//! What is said of the names of scripts.

use crate::rows::expect_met;
use crate::scripts_read::parsed;
use NameFault::{Arity, Twice, Unknown};
use ResolveFault::Is;
use lang_ast::{Function, Program};
use lang_names::{NameFault, ResolveFault, resolve};
use page_values::Str;
use std::alloc::Global;
use std::test::Fail;

fn program_of(alloc: Global, script: &str) -> Result<Result<Program, ResolveFault>, Fail> {
    let tree = parsed(alloc, script.as_bytes())??;
    Ok(resolve(alloc, tree))
}

// Whether the names of a script have this fault, or none.
fn is_told(alloc: Global, script: &str, fault: Option<ResolveFault>) -> Result<bool, Fail> {
    Ok(program_of(alloc, script)?.err() == fault)
}

const SCRIPTS: [(&'static str, Option<ResolveFault>); 54] = [
    // Unknown names.
    ("lgo(1);", Some(Is(Unknown { at: 0 }))),
    ("x;", Some(Is(Unknown { at: 0 }))),
    ("x = 1;", Some(Is(Unknown { at: 0 }))),
    ("log;", Some(Is(Unknown { at: 0 }))),
    ("log = 1;", Some(Is(Unknown { at: 0 }))),
    ("fn f() { } f = 1;", Some(Is(Unknown { at: 11 }))),
    ("fn f() { var a = 1; } a;", Some(Is(Unknown { at: 22 }))),
    ("fn f(a) { } fn g() { a; }", Some(Is(Unknown { at: 21 }))),
    ("every();", Some(Is(Unknown { at: 0 }))),
    // Operations have their numbers of arguments.
    ("log(1, 2);", Some(Is(Arity { at: 0 }))),
    ("log();", Some(Is(Arity { at: 0 }))),
    ("now(1);", Some(Is(Arity { at: 0 }))),
    ("postTask(1, 2, 3);", Some(Is(Arity { at: 0 }))),
    ("log(1); now(); postTask(1, 2, 3, 4);", None),
    ("fn f(a) { } f(); f(1, 2);", None),
    ("var v = 1; v(1, 2);", None),
    // Names are given once.
    ("var a = 1; var a = 2;", Some(Is(Twice { at: 15 }))),
    ("fn f() { } fn f() { }", Some(Is(Twice { at: 14 }))),
    ("var f = 1; fn f() { }", Some(Is(Twice { at: 14 }))),
    ("fn f() { } var f = 1;", Some(Is(Twice { at: 15 }))),
    (
        "fn f() { } try { } catch (f) { }",
        Some(Is(Twice { at: 26 })),
    ),
    (
        "try { } catch (f) { } fn f() { }",
        Some(Is(Twice { at: 25 })),
    ),
    ("fn f(a, a) { }", Some(Is(Twice { at: 8 }))),
    ("fn f(a) { var a = 1; }", Some(Is(Twice { at: 14 }))),
    // Operations and functions keep their names.
    ("fn log() { }", Some(Is(Twice { at: 3 }))),
    ("var log = 1;", Some(Is(Twice { at: 4 }))),
    ("try { } catch (log) { }", Some(Is(Twice { at: 15 }))),
    ("fn f(log) { }", Some(Is(Twice { at: 5 }))),
    ("fn f() { var log = 1; }", Some(Is(Twice { at: 13 }))),
    (
        "fn f() { } fn g() { var f = 1; }",
        Some(Is(Twice { at: 24 })),
    ),
    (
        "fn g() { var f = 1; } fn f() { }",
        Some(Is(Twice { at: 13 })),
    ),
    ("fn g(f) { } fn f() { }", Some(Is(Twice { at: 5 }))),
    (
        "fn g() { try { } catch (f) { } } fn f() { }",
        Some(Is(Twice { at: 24 })),
    ),
    ("fn f(f) { }", Some(Is(Twice { at: 5 }))),
    // Catches may repeat a name.
    ("try { } catch (e) { } try { } catch (e) { }", None),
    ("var e = 1; try { } catch (e) { }", None),
    ("try { } catch (e) { } var e = 1;", None),
    ("fn f(e) { try { } catch (e) { } }", None),
    ("fn f() { try { } catch (e) { } var e = 1; }", None),
    // Names are known in their whole scope.
    ("f(); f; fn f() { }", None),
    ("a; a = 1; var a = 1;", None),
    ("e; try { } catch (e) { }", None),
    ("fn f() { a; } var a = 1;", None),
    ("fn f() { a; a = 1; var a = 1; }", None),
    ("fn f(a) { a; }", None),
    ("var a = 1; fn f() { var a = 2; a; } a;", None),
    ("fn f() { var a = 1; } fn g() { var a = 1; }", None),
    ("fn f() { f(); }", None),
    // The first fault is told.
    ("x; var a = 1; var a = 2;", Some(Is(Unknown { at: 0 }))),
    ("var a = 1; var a = 2; x;", Some(Is(Twice { at: 15 }))),
    ("log; var log = 1;", Some(Is(Unknown { at: 0 }))),
    ("log(1, 2); lgo();", Some(Is(Arity { at: 0 }))),
    ("fn f() { log(); } f = 1;", Some(Is(Arity { at: 9 }))),
    ("lgo(); log(1, 2);", Some(Is(Unknown { at: 0 }))),
];

#[test]
fn the_first_fault_of_the_names_is_told(rt: HostRuntime) -> Result<(), Fail> {
    for (number, (script, fault)) in SCRIPTS.iter().enumerate() {
        expect_met(&rt, is_told(rt.alloc(), *script, *fault)?, number);
    }
    Ok(())
}

fn are_f_and_g(names: &[Str]) -> bool {
    match names {
        [f, g] => f.bytes() == b"f".as_slice() && g.bytes() == b"g".as_slice(),
        _ => false,
    }
}

fn has_g(function: Option<&Function>) -> bool {
    match function {
        Some(g) => g.name.at == 17 && g.parameters.len() == 1 && g.body.len() == 1,
        None => false,
    }
}

// Functions are numbered in the order of the text; they are items of the script, and so are statements.
fn has_three_items(program: &Program) -> bool {
    program.function_count() == 2
        && are_f_and_g(program.names().names())
        && program.items().len() == 3
        && has_g(program.function(1))
        && program.function(2).is_none()
}

#[test]
fn functions_and_statements_are_the_items_of_a_script(rt: HostRuntime) -> Result<(), Fail> {
    let program = program_of(rt.alloc(), "fn f() { } g; fn g(x) { x; }")??;
    let has_items = has_three_items(&program);
    drop(program);
    expect_met(&rt, has_items, 0);
    Ok(())
}
