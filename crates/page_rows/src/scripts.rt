//! Scripts on the script machine around a small host: what they log, how they end, and the fuel that they leave.

use crate::nested_host::Nested;
use lang_ast::Program;
use lang_names::resolve;
use lang_parse::parse;
use lang_tokens::tokens;
use page_interp::{Machine, Ran, Stopped};
use page_values::{FunNames, Func, Items, Value, print};
use std::alloc::Global;
use std::test::Fail;

/// What a script is given, and what is wanted of it.
#[derive(Clone, Copy)]
struct Example {
    script: &'static str,
    /// After how many operations the host refuses.
    operations: u64,
    fuel: u64,
    /// What it logs, a line each.
    logs: &'static str,
    end: &'static str,
    left: u64,
}

/// What a script gave.
#[derive(Drop)]
struct Outcome {
    logs: Vec<u8>,
    end: Vec<u8>,
    left: u64,
}

// The spelling of a value behind a word.
fn told(alloc: Global, word: &[u8], value: &Value, names: &FunNames) -> Result<Vec<u8>, Fail> {
    let mut into = word.to_vec(alloc)?;
    print(alloc, value, names, &mut into)?;
    Ok(into)
}

// The values that were logged, a line each.
fn lines(alloc: Global, values: &[Value], names: &FunNames) -> Result<Vec<u8>, Fail> {
    let mut into = Vec::new(alloc);
    for value in values {
        print(alloc, value, names, &mut into)?;
        into.push(b'\n')?;
    }
    Ok(into)
}

fn run_program(
    alloc: Global,
    program: &Program,
    operations: u64,
    fuel: u64,
) -> Result<Outcome, Fail> {
    let mut host = Nested::new(alloc, program.function_count(), operations);
    let mut machine = Machine::new(alloc, program)?;
    let body = Func {
        function: program.function_count(),
        bound: Items::new(Vec::new(alloc)),
    };
    let mut left = fuel;
    let ran = machine.call(&mut host, &body, Vec::new(alloc), &mut left);
    let end = match ran {
        Ok(Ran::Value(value)) => told(alloc, b"", &value, program.names())?,
        Ok(Ran::Throw(value)) => told(alloc, b"throws ", &value, program.names())?,
        Ok(Ran::Fuel) => b"fuel".to_vec(alloc)?,
        Err(Stopped::Host(_)) => b"stopped".to_vec(alloc)?,
        Err(Stopped::OutOfMemory) => return Err(Fail::new("out of memory")),
    };
    let logs = lines(alloc, &host.logged, program.names())?;
    Ok(Outcome { logs, end, left })
}

fn run(alloc: Global, example: &Example) -> Result<Outcome, Fail> {
    let tokens = tokens(alloc, example.script.as_bytes())?;
    let program = resolve(alloc, parse(alloc, &tokens)?)?;
    run_program(alloc, &program, example.operations, example.fuel)
}

// A script that runs to its end, and the units that are left of 1,000.
const fn ends(script: &'static str, logs: &'static str, left: u64) -> Example {
    Example {
        script,
        operations: 100,
        fuel: 1_000,
        logs,
        end: "unit",
        left,
    }
}

const RANGE_ERROR: &str = "throws RangeError(\"\")";

const TYPE_ERROR: &str = "throws TypeError(\"\")";

fn meets(outcome: &Outcome, example: &Example) -> bool {
    outcome.logs.as_slice() == example.logs.as_bytes()
        && outcome.end.as_slice() == example.end.as_bytes()
        && outcome.left == example.left
}

#[test]
fn values_are_evaluated_from_left_to_right_by_their_kinds(rt: HostRuntime) -> Result<(), Fail> {
    let examples = [
        ends("log(-7 / 2); log(-7 % 2); log(7 % -2);", "-3\n-1\n1\n", 999),
        ends(
            "log(1 - 2 - 3); log(2 + 3 * 4); log(-(1 + 1));",
            "-4\n14\n-2\n",
            999,
        ),
        ends(
            "log(1 == \"1\"); log([1] == [1]); log(!(1 < 2));",
            "false\ntrue\nfalse\n",
            999,
        ),
        ends(
            "log([1, \"a\", [true]]); log([4, 5][1]);",
            "[1,\"a\",[true]]\n5\n",
            999,
        ),
        ends(
            "fn t() { log(1); return true; } log(false && t()); log(true || t());",
            "false\ntrue\n",
            999,
        ),
        Example {
            end: RANGE_ERROR,
            ..ends("log(\"a\" + \"b\"); log(7 / 0);", "\"ab\"\n", 999)
        },
        Example {
            end: RANGE_ERROR,
            ..ends("log([1][1]);", "", 999)
        },
        Example {
            end: TYPE_ERROR,
            ..ends("log(1 + \"a\");", "", 999)
        },
    ];
    for example in examples {
        let outcome = run(rt.alloc(), &example)?;
        assert!(rt; meets(&outcome, &example), "{}", example.script);
    }
    Ok(())
}

#[test]
fn functions_loops_and_catches_go_on_where_they_should(rt: HostRuntime) -> Result<(), Fail> {
    let examples = [
        ends("try { throw 5; } catch (e) { log(e); }", "5\n", 999),
        ends(
            "fn h(a, b) { log(a + b); } h(\"x\", \"y\", 3);",
            "\"xy\"\n",
            998,
        ),
        ends(
            "var a = 1; fn f(a) { a = 5; return a; } log(f(2)); log(a);",
            "5\n1\n",
            998,
        ),
        ends(
            "fn g(x) { return x; } log(g()); log(g); fn k() { }",
            "unit\nfn:g()\n",
            998,
        ),
        ends(
            "fn c(n) { if (n == 1) { return \"a\"; } else if (n == 2) { return \"b\"; } else { return \"c\"; } } log(c(1)); log(c(2)); log(c(3));",
            "\"a\"\n\"b\"\n\"c\"\n",
            996,
        ),
        ends(
            "var i = 0; while (i < 3) { i = i + 1; } log(i);",
            "3\n",
            996,
        ),
        ends("log(1); return; log(2);", "1\n", 999),
    ];
    for example in examples {
        let outcome = run(rt.alloc(), &example)?;
        assert!(rt; meets(&outcome, &example), "{}", example.script);
    }
    Ok(())
}

#[test]
fn fuel_and_open_calls_end_where_the_rules_say(rt: HostRuntime) -> Result<(), Fail> {
    let fuel_of_5 = Example {
        fuel: 5,
        end: "fuel",
        ..ends("while (1 == 1) { }", "", 0)
    };
    let examples = [
        fuel_of_5,
        Example {
            script: "try { while (true) { } } catch (e) { log(e); }",
            ..fuel_of_5
        },
        Example {
            fuel: 2,
            ..ends("busy(1); log(1);", "1\n", 0)
        },
        Example {
            fuel: 1,
            end: "fuel",
            ..ends("busy(1); log(1);", "", 0)
        },
        ends(
            "fn r(n) { if (n == 0) { return 0; } return 1 + r(n - 1); } log(r(254));",
            "254\n",
            744,
        ),
        Example {
            end: RANGE_ERROR,
            ..ends(
                "fn r(n) { if (n == 0) { return 0; } return 1 + r(n - 1); } log(r(255));",
                "",
                744,
            )
        },
    ];
    for example in examples {
        let outcome = run(rt.alloc(), &example)?;
        assert!(rt; meets(&outcome, &example), "{}", example.script);
    }
    Ok(())
}

#[test]
fn calls_of_small_functions_keep_their_order_and_their_fuel(rt: HostRuntime) -> Result<(), Fail> {
    let examples = [
        ends(
            "fn f(x) { return x + 1; } var s = 0; var i = 0; while (i < 3) { s = s + i; f(s); i = f(i); } log(s); log(i);",
            "3\n3\n",
            990,
        ),
        ends(
            "fn f(x) { var y = x * 2; x = y + 1; if (x > 5) { if (y > 6) { return \"big\"; } } return x; } \
             var a = f(1); var b = f(4); log(a); log(b);",
            "3\n\"big\"\n",
            997,
        ),
        ends(
            "var g = 1; fn f() { g = g + 1; return g; } var a = f(); f(); log(g); log(a);",
            "3\n2\n",
            997,
        ),
        ends(
            "fn one() { return 1; } fn two() { return 2; } fn h(k) { var a = k(); return a; } log(h(two)); var k = one; log(k());",
            "2\n1\n",
            996,
        ),
        ends(
            "fn f(x, y) { return y; } var a = f(1); var b = f(1, 2, 3); log(a); log(b);",
            "unit\n2\n",
            997,
        ),
        ends(
            "fn f(x) { return 1 / x; } var a = 0; try { a = f(0); } catch (e) { a = 7; } log(a);",
            "7\n",
            998,
        ),
        Example {
            fuel: 8,
            end: "fuel",
            ..ends(
                "fn f(x) { return x; } var i = 0; while (i < 5) { f(i); i = i + 1; }",
                "",
                0,
            )
        },
        ends(
            "fn f() { return 5; } fn r(n) { if (n == 0) { var x = f(); return x; } return r(n - 1); } log(r(253));",
            "5\n",
            744,
        ),
        Example {
            end: RANGE_ERROR,
            ..ends(
                "fn f() { return 5; } fn r(n) { if (n == 0) { var x = f(); return x; } return r(n - 1); } log(r(254));",
                "",
                744,
            )
        },
    ];
    for example in examples {
        let outcome = run(rt.alloc(), &example)?;
        assert!(rt; meets(&outcome, &example), "{}", example.script);
    }
    Ok(())
}

#[test]
fn calls_inside_of_calls_keep_their_order_and_their_fuel(rt: HostRuntime) -> Result<(), Fail> {
    let fib = ends(
        "fn fib(n) { if (n < 2) { return n; } return fib(n - 1) + fib(n - 2); } log(fib(10));",
        "55\n",
        822,
    );
    let examples = [
        fib,
        Example {
            fuel: 100,
            logs: "",
            end: "fuel",
            left: 0,
            ..fib
        },
        ends(
            "fn fact(n) { if (n == 0) { return 1; } return n * fact(n - 1); } log(fact(10));",
            "3628800\n",
            988,
        ),
        Example {
            end: RANGE_ERROR,
            ..ends(
                "fn fact(n) { if (n == 0) { return 1; } return n * fact(n - 1); } log(fact(21));",
                "",
                977,
            )
        },
        ends(
            "fn sq(x) { return x * x; } fn f(a, b) { var c = sq(a); return (c + sq(b)) * 2 - sq(1); } log(f(2, 3));",
            "25\n",
            995,
        ),
        ends(
            "fn h(x) { return 10 / x; } fn g(x) { return h(x) + h(x - 1); } log(g(3)); \
             try { g(1); } catch (e) { log(7); } log(g(2));",
            "8\n7\n15\n",
            990,
        ),
    ];
    for example in examples {
        let outcome = run(rt.alloc(), &example)?;
        assert!(rt; meets(&outcome, &example), "{}", example.script);
    }
    Ok(())
}

#[test]
fn names_are_found_among_many_and_where_one_stands_twice(rt: HostRuntime) -> Result<(), Fail> {
    let examples = [
        ends(
            "var a = 1; var b = 2; var c = 3; var d = 4; var e = 5; var f = 6; var g = 7; var h = 8; var i = 9; \
             i = a + h; b = i * c; log(b); log(i); log(d + e + f + g);",
            "27\n9\n22\n",
            999,
        ),
        ends(
            "var a = 1; var b = 2; var c = 3; var d = 4; var f = 6; var g = 7; var h = 8; var i = 9; \
             try { throw 10; } catch (e) { log(e); } try { throw 11; } catch (e) { log(e + i); } log(e);",
            "10\n20\n11\n",
            999,
        ),
    ];
    for example in examples {
        let outcome = run(rt.alloc(), &example)?;
        assert!(rt; meets(&outcome, &example), "{}", example.script);
    }
    Ok(())
}

#[test]
fn callbacks_nest_and_stops_pass_through(rt: HostRuntime) -> Result<(), Fail> {
    let examples = [
        ends(
            "fn f() { log(1); } fn g() { queueMicrotask(f); log(2); } queueMicrotask(g);",
            "1\n1\n2\n1\n1\n2\n",
            993,
        ),
        ends(
            "fn f() { throw 7; } try { queueMicrotask(f); } catch (e) { log(e); }",
            "7\n",
            998,
        ),
        Example {
            operations: 2,
            end: "stopped",
            ..ends("log(1); log(2); log(3);", "1\n2\n", 999)
        },
    ];
    for example in examples {
        let outcome = run(rt.alloc(), &example)?;
        assert!(rt; meets(&outcome, &example), "{}", example.script);
    }
    Ok(())
}
