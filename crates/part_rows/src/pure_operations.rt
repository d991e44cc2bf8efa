//! Each operation on worked arguments, with ample memory.

ghost use Rattle.std.specs.Prelude.{IfOk, map};
ghost use Rattle.page_values.specs.Seen.{seen};
ghost use Rattle.page_values.specs.Written.{IsNumbered};
ghost use Rattle.lang_ast.specs.Steps.{AllNumbered};

use crate::rows::expect_bytes;
use crate::spellings::{names, told};
use Args::{One, Two};
use Sample::{Abc, Deadline, F, H, No, NoItems, Number, Promise, RangeError, Unit};
use lang_ast::{HostStep, Op, argument_count};
use page_pure::{gives_value, known_value, pure_op, pure_op_of};
use page_values::{FaultName, Items, Str, Value, fault, function_value};
use std::alloc::{AllocError, Global};
use std::process::Abort;
use std::test::Fail;

// A value, of which a table tells.
#[derive(Clone, Copy)]
enum Sample {
    Unit,
    Number(i64),
    // The texts "abc" and "no".
    Abc,
    No,
    NoItems,
    // The functions f and h.
    F,
    H,
    Promise,
    // A fault with no text.
    RangeError,
    Deadline(Option<u64>),
}

#[derive(Clone, Copy)]
enum Args {
    One(Sample),
    Two(Sample, Sample),
}

// An operation on arguments, and what it answers.
const ROWS: [(Op, Args, &str); 16] = [
    (Op::TextOf, One(Number(-7)), "value \"-7\""),
    (Op::TextOf, One(H), "value \"fn:h()\""),
    (Op::KindOf, One(Promise), "value \"promise\""),
    (Op::KindOf, One(Unit), "value \"unit\""),
    (Op::Len, One(Abc), "value 3"),
    (Op::Len, One(NoItems), "value 0"),
    // Other values have no length and do not grow.
    (Op::Len, One(Number(3)), "throw TypeError(\"\")"),
    (Op::Push, Two(Unit, Unit), "throw TypeError(\"\")"),
    (Op::Push, Two(NoItems, Number(4)), "value [4]"),
    (Op::Bind, Two(F, NoItems), "value fn:f()"),
    (Op::MakeFault, One(No), "value Error(\"no\")"),
    (Op::FaultNameOf, One(RangeError), "value \"RangeError\""),
    (Op::FaultTextOf, One(RangeError), "value \"\""),
    // A fixed deadline is that of a timeout.
    (Op::DidTimeout, One(Deadline(Some(5))), "value true"),
    (Op::DidTimeout, One(Deadline(None)), "value false"),
    // This one needs a page.
    (Op::Log, One(Unit), "none"),
];

// Whether an operation is told to answer arguments with a value, before it is done.
const TOLD: [(Op, Args, bool); 6] = [
    (Op::KindOf, One(Promise), true),
    (Op::Len, One(Abc), true),
    (Op::Len, One(Number(3)), false),
    (Op::Push, Two(NoItems, Number(4)), true),
    (Op::Push, Two(Unit, Unit), false),
    // This one needs a page.
    (Op::Log, One(Unit), false),
];

fn made(alloc: Global, sample: Sample) -> Result<Value, AllocError>
    ensures { IfOk result (λ v. IsNumbered 2 (seen v)) }
{
    match sample {
        Unit => Ok(Value::Unit),
        Number(n) => Ok(Value::Int(n)),
        Abc => Ok(Value::Text(Str::new(b"abc".to_vec(alloc)?))),
        No => Ok(Value::Text(Str::new(b"no".to_vec(alloc)?))),
        NoItems => Ok(Value::List(Items::new(Vec::new(alloc)))),
        F => Ok(function_value(alloc, 0)),
        H => Ok(function_value(alloc, 1)),
        Promise => Ok(Value::Promise(1)),
        RangeError => Ok(fault(alloc, FaultName::RangeError)),
        Deadline(at) => Ok(Value::Deadline(at)),
    }
}

fn two(alloc: Global, first: Sample, second: Sample) -> Result<Vec<Value>, AllocError>
    ensures { IfOk result (λ values. AllNumbered 2 (map seen values.items)) }
{
    let first = made(alloc, first)?;
    let second = made(alloc, second)?;
    Ok(vec![in alloc; first, second]?)
}

fn values(alloc: Global, args: Args) -> Result<Vec<Value>, AllocError>
    ensures { IfOk result (λ values. AllNumbered 2 (map seen values.items)) }
{
    match args {
        One(first) => Ok(vec![in alloc; made(alloc, first)?]?),
        Two(first, second) => two(alloc, first, second),
    }
}

fn answer(alloc: Global, op: Op, args: &Vec<Value>) -> Result<Option<HostStep>, Fail>
    requires { AllNumbered 2 (map seen args.now.items) }
{
    if args.len() != argument_count(op) {
        return Err(Fail::new("another number of arguments"));
    }
    let names = names(alloc)?;
    Ok(pure_op(alloc, op, args, &names)?)
}

// The same with the arguments handed over.
fn answer_handed(alloc: Global, op: Op, args: Vec<Value>) -> Result<Option<HostStep>, Fail>
    requires { AllNumbered 2 (map seen args.items) }
{
    if args.len() != argument_count(op) {
        return Err(Fail::new("another number of arguments"));
    }
    let names = names(alloc)?;
    Ok(pure_op_of(alloc, op, args, &names)?)
}

fn gives(op: Op, args: &Vec<Value>) -> Result<bool, Fail> {
    if args.len() != argument_count(op) {
        return Err(Fail::new("another number of arguments"));
    }
    match args.as_slice() {
        [first] => Ok(gives_value(op, &[first])),
        [first, second] => Ok(gives_value(op, &[first, second])),
        _ => Ok(false),
    }
}

fn known_length(value: &Value) -> Option<i64> {
    match known_value(Op::Len, &[value]) {
        Some(Value::Int(length)) => Some(length),
        _ => None,
    }
}

fn spelling(alloc: Global, answer: &Option<HostStep>) -> Result<Vec<u8>, Fail> {
    match answer {
        None => Ok(b"none".to_vec(alloc)?),
        Some(HostStep::Value(value)) => told(alloc, b"value ", value),
        Some(HostStep::Throw(fault)) => told(alloc, b"throw ", fault),
        Some(HostStep::Invoke { .. }) => Ok(b"invoke".to_vec(alloc)?),
    }
}

fn answered(alloc: Global, op: Op, args: Args) -> Result<Vec<u8>, Fail> {
    let values = values(alloc, args)?;
    let answer = answer(alloc, op, &values);
    drop(values);
    let answer = answer?;
    let line = spelling(alloc, &answer);
    drop(answer);
    line
}

fn answered_handed(alloc: Global, op: Op, args: Args) -> Result<Vec<u8>, Fail> {
    let values = values(alloc, args)?;
    let answer = answer_handed(alloc, op, values)?;
    let line = spelling(alloc, &answer);
    drop(answer);
    line
}

fn expect_answer(
    rt: &impl Abort,
    alloc: Global,
    op: Op,
    args: Args,
    wanted: &str,
) -> Result<(), Fail> {
    let line = answered(alloc, op, args)?;
    expect_bytes(rt, &line, wanted.as_bytes());
    let line = answered_handed(alloc, op, args)?;
    expect_bytes(rt, &line, wanted.as_bytes());
    Ok(())
}

#[test]
fn operations_on_values_alone_have_an_answer(rt: HostRuntime) -> Result<(), Fail> {
    for (op, args, wanted) in &ROWS {
        expect_answer(&rt, rt.alloc(), *op, *args, *wanted)?;
    }
    Ok(())
}

#[test]
fn an_answer_that_is_a_value_is_told_before(rt: HostRuntime) -> Result<(), Fail> {
    for (op, args, wanted) in &TOLD {
        let values = values(rt.alloc(), *args)?;
        let told = gives(*op, &values);
        drop(values);
        if told? != *wanted {
            return Err(Fail::new("an answer is told amiss"));
        }
    }
    Ok(())
}

#[test]
fn a_length_is_known_before(rt: HostRuntime) -> Result<(), Fail> {
    for (sample, wanted) in &[(Abc, Some(3)), (NoItems, Some(0)), (Number(3), None)] {
        let value = made(rt.alloc(), *sample)?;
        let known = known_length(&value);
        drop(value);
        if known != *wanted {
            return Err(Fail::new("a length is known amiss"));
        }
    }
    Ok(())
}
