//! Worked values, each call that takes memory with ample memory, and the limits from both sides.

ghost use Rattle.std.specs.Prelude.{IsTrue};
ghost use Rattle.page_values.specs.Texts.{is_text};

use crate::rows::expect_met;
use crate::texts::text_of;
use page_values::{
    FaultName, FunNames, Items, Str, TooHeavy, Value, ValueFault, as_function, as_list, bind, copy,
    copy_items, copy_text, fault, function_value, join, make_list, make_text, nesting, print, push,
    same, weight,
};
use std::alloc::{AllocError, Global};
use std::process::Abort;
use std::test::Fail;

fn text(alloc: Global, bytes: &[u8]) -> Result<Value, Fail>
    requires { IsTrue (is_text bytes.now) }
{
    Ok(make_text(bytes.to_vec(alloc)?)?)
}

fn list(alloc: Global, first: Value) -> Result<Value, Fail> {
    Ok(make_list(vec![in alloc; first]?)?)
}

// The names of the functions f and h.
fn names(alloc: Global) -> Result<FunNames, AllocError> {
    let f = Str::new(b"f".to_vec(alloc)?);
    let h = Str::new(b"h".to_vec(alloc)?);
    Ok(FunNames::new(vec![in alloc; f, h]?))
}

// Whether the spelling of a value comes behind what was there.
fn is_behind(alloc: Global, value: &Value, names: &FunNames, spelling: &str) -> Result<bool, Fail> {
    let mut line = b"log ".to_vec(alloc)?;
    print(alloc, value, names, &mut line)?;
    Ok(line.strip_prefix(b"log ") == Some(spelling.as_bytes()))
}

fn is_spelled(alloc: Global, value: &Value, spelling: &str) -> Result<bool, Fail> {
    let names = names(alloc)?;
    let is_spelled = is_behind(alloc, value, &names, spelling);
    drop(names);
    is_spelled
}

// Values with none inside, and how they are spelled. Handles are spelled with their numbers.
const PLAIN: [(Value, &'static str); 13] = [
    (Value::Unit, "unit"),
    (Value::Bool(true), "true"),
    (Value::Bool(false), "false"),
    (Value::Int(5), "5"),
    (Value::Int(0), "0"),
    (Value::Int(-10), "-10"),
    (Value::Int(i64::MAX), "9223372036854775807"),
    (Value::Int(i64::MIN), "-9223372036854775808"),
    (Value::Promise(3), "promise#3"),
    (Value::Signal(1), "signal#1"),
    (Value::Controller(4_294_967_295), "controller#4294967295"),
    (Value::Deadline(None), "deadline"),
    (Value::Deadline(Some(5)), "deadline@5"),
];

// The table is let go where it was made, once.
fn expect_spellings(rt: &impl Abort, alloc: Global, table: &[(Value, &str)]) -> Result<(), Fail> {
    for (number, (value, spelling)) in table.iter().enumerate() {
        expect_met(rt, is_spelled(alloc, value, *spelling)?, number);
    }
    Ok(())
}

#[test]
fn plain_values_and_handles_are_spelled(rt: HostRuntime) -> Result<(), Fail> {
    expect_spellings(&rt, rt.alloc(), &PLAIN)
}

// A list of a number, a text and a list.
fn mixed(alloc: Global) -> Result<Value, Fail> {
    let inner = list(alloc, Value::Bool(true))?;
    let a = text(alloc, b"a")?;
    Ok(make_list(vec![in alloc; Value::Int(1), a, inner]?)?)
}

// The function with the items of the list bound behind those that are bound already.
fn bound(alloc: Global, function: &Value, more: &Value) -> Result<Value, Fail> {
    let function = as_function(function).ok_or("no function")?;
    let more = as_list(more).ok_or("no list")?;
    Ok(bind(alloc, function, more)?)
}

fn bound_once(alloc: Global) -> Result<Value, Fail> {
    let h = function_value(alloc, 1);
    let x = list(alloc, text(alloc, b"x")?)?;
    bound(alloc, &h, &x)
}

fn bound_twice(alloc: Global) -> Result<Value, Fail> {
    let once = bound_once(alloc)?;
    let y = list(alloc, Value::Int(2))?;
    bound(alloc, &once, &y)
}

// The text with another behind it.
fn joined(alloc: Global) -> Result<Value, Fail> {
    let x = text_of(alloc, b"x")?;
    let y = text_of(alloc, b"y")?;
    Ok(join(alloc, &x, &y)?)
}

// A list in which a list holds a promise.
fn holding(alloc: Global) -> Result<Value, Fail> {
    let inner = list(alloc, Value::Promise(1))?;
    list(alloc, inner)
}

// The list with a text behind its items.
fn pushed(alloc: Global) -> Result<Value, Fail> {
    let items = Items::new(vec![in alloc; Value::Int(1)]?);
    let x = text_of(alloc, b"x")?;
    Ok(push(items, Value::Text(x))?)
}

fn units(alloc: Global, count: u32) -> Result<Vec<Value>, AllocError> {
    let mut items = Vec::new(alloc);
    for _ in 0..count {
        items.push(Value::Unit)?;
    }
    Ok(items)
}

// Lists in one another, so deep.
fn nested(alloc: Global, deep: u32) -> Result<Value, Fail> {
    let mut value = Value::Unit;
    for _ in 0..deep {
        value = list(alloc, value)?;
    }
    Ok(value)
}

fn cause(alloc: Global) -> Result<Value, Fail> {
    Ok(Value::Fault(FaultName::Error, text_of(alloc, b"a\"")?))
}

// How a value is made.
#[derive(Clone, Copy)]
enum Made {
    Fault(FaultName),
    Text,
    Escaped,
    Cause,
    Empty,
    Mixed,
    BoundOnce,
    BoundTwice,
    Joined,
    Pushed,
    Holding,
    // a list of so many units
    Units(u32),
    // lists in one another, so deep
    Nested(u32),
}

fn value_of(alloc: Global, how: Made) -> Result<Value, Fail> {
    match how {
        Made::Fault(name) => Ok(fault(alloc, name)),
        Made::Text => text(alloc, b"xy"),
        Made::Escaped => text(alloc, b"a\"b\\c\nd~ "),
        Made::Cause => cause(alloc),
        Made::Empty => Ok(make_list(Vec::new(alloc))?),
        Made::Mixed => mixed(alloc),
        Made::BoundOnce => bound_once(alloc),
        Made::BoundTwice => bound_twice(alloc),
        Made::Joined => joined(alloc),
        Made::Pushed => pushed(alloc),
        Made::Holding => holding(alloc),
        Made::Units(count) => Ok(make_list(units(alloc, count)?)?),
        Made::Nested(deep) => nested(alloc, deep),
    }
}

const SPELLED: [(Made, &'static str); 15] = [
    (Made::Fault(FaultName::Error), "Error(\"\")"),
    (Made::Fault(FaultName::TypeError), "TypeError(\"\")"),
    (Made::Fault(FaultName::RangeError), "RangeError(\"\")"),
    (Made::Fault(FaultName::AbortError), "AbortError(\"\")"),
    (Made::Fault(FaultName::TimeoutError), "TimeoutError(\"\")"),
    (
        Made::Fault(FaultName::NotAllowedError),
        "NotAllowedError(\"\")",
    ),
    // Texts are spelled with their escapes.
    (Made::Text, "\"xy\""),
    (Made::Escaped, "\"a\\\"b\\\\c\\nd~ \""),
    (Made::Cause, "Error(\"a\\\"\")"),
    // Lists are spelled with commas between.
    (Made::Empty, "[]"),
    (Made::Mixed, "[1,\"a\",[true]]"),
    // Arguments are bound behind those bound before.
    (Made::BoundOnce, "fn:h(\"x\")"),
    (Made::BoundTwice, "fn:h(\"x\",2)"),
    // Texts are joined, and lists grow at their end.
    (Made::Joined, "\"xy\""),
    (Made::Pushed, "[1,\"x\"]"),
];

fn is_made_spelled(alloc: Global, how: Made, spelling: &str) -> Result<bool, Fail> {
    let value = value_of(alloc, how)?;
    let is_spelled = is_spelled(alloc, &value, spelling);
    drop(value);
    is_spelled
}

#[test]
fn made_values_are_spelled(rt: HostRuntime) -> Result<(), Fail> {
    for (number, (how, spelling)) in SPELLED.iter().enumerate() {
        expect_met(&rt, is_made_spelled(rt.alloc(), *how, *spelling)?, number);
    }
    Ok(())
}

// Values, their weights, and how deep they nest. A list weighs more than its items, and nests deeper. The last two are
// the heaviest value and the deepest one.
const MEASURED: [(Made, u64, u64); 5] = [
    (Made::Mixed, 6, 2),
    (Made::Pushed, 4, 1),
    (Made::BoundTwice, 4, 1),
    (Made::Units(65_535), 65_536, 1),
    (Made::Nested(64), 65, 64),
];

fn measures(alloc: Global, how: Made) -> Result<(u64, u64), Fail> {
    let value = value_of(alloc, how)?;
    let measures = (weight(&value), nesting(&value));
    drop(value);
    Ok(measures)
}

#[test]
fn lists_weigh_more_than_their_items_and_nest_deeper(rt: HostRuntime) -> Result<(), Fail> {
    for (number, (how, weight, nesting)) in MEASURED.iter().enumerate() {
        let is_met = measures(rt.alloc(), *how)? == (*weight, *nesting);
        expect_met(&rt, is_met, number);
    }
    Ok(())
}

// Lists, and whether they are plain. A promise in a list is one in the list around it.
const LISTED: [(Made, bool); 4] = [
    (Made::Empty, true),
    (Made::Mixed, true),
    (Made::Pushed, true),
    (Made::Holding, false),
];

fn is_plain(alloc: Global, how: Made) -> Result<bool, Fail> {
    let value = value_of(alloc, how)?;
    let is_plain = as_list(&value).is_some_and(|items| items.is_plain());
    drop(value);
    Ok(is_plain)
}

#[test]
fn lists_that_hold_no_handle_are_plain(rt: HostRuntime) -> Result<(), Fail> {
    for (number, (how, plain)) in LISTED.iter().enumerate() {
        expect_met(&rt, is_plain(rt.alloc(), *how)? == *plain, number);
    }
    Ok(())
}

fn are_too_heavy(items: Vec<Value>) -> bool {
    make_list(items).err() == Some(ValueFault::Is(TooHeavy))
}

// The deepest value as an item.
fn too_deep(alloc: Global) -> Result<Vec<Value>, Fail> {
    let value = nested(alloc, 64)?;
    Ok(vec![in alloc; value]?)
}

#[test]
fn the_greatest_weight_is_65536_and_the_deepest_nest_64(rt: HostRuntime) -> Result<(), Fail> {
    expect_met(&rt, are_too_heavy(units(rt.alloc(), 65_536)?), 0);
    expect_met(&rt, are_too_heavy(too_deep(rt.alloc())?), 1);
    Ok(())
}

// The list with unit behind its items.
fn with_unit(alloc: Global, value: &Value) -> Result<Value, Fail> {
    let items = as_list(value).ok_or("no list")?;
    Ok(push(copy_items(alloc, items)?, Value::Unit)?)
}

fn list_of_function(alloc: Global) -> Result<Value, Fail> {
    list(alloc, function_value(alloc, 0))
}

fn longer(alloc: Global) -> Result<Value, Fail> {
    let value = list_of_function(alloc)?;
    let longer = with_unit(alloc, &value);
    drop(value);
    longer
}

fn list_of_text(alloc: Global) -> Result<Value, Fail> {
    let a = text(alloc, b"a")?;
    list(alloc, a)
}

fn copied_list(alloc: Global) -> Result<Value, Fail> {
    let value = list_of_text(alloc)?;
    let copied = copy(alloc, &value);
    drop(value);
    Ok(copied?)
}

fn copied_text(alloc: Global) -> Result<Value, Fail> {
    let y = text_of(alloc, b"y")?;
    let copied = copy_text(alloc, &y);
    drop(y);
    Ok(Value::Text(copied?))
}

// Whether they are the same, or are not, both ways.
fn compares(a: Value, b: Result<Value, Fail>, are_same: bool) -> Result<bool, Fail> {
    let b = b?;
    let is_met = same(&a, &b) == are_same && same(&b, &a) == are_same;
    drop(a);
    drop(b);
    Ok(is_met)
}

#[test]
fn copies_are_the_same_and_a_longer_list_is_not(rt: HostRuntime) -> Result<(), Fail> {
    let alloc = rt.alloc();
    let is_list_copied = compares(list_of_text(alloc)?, copied_list(alloc), true)?;
    let is_text_copied = compares(text(alloc, b"y")?, copied_text(alloc), true)?;
    let is_longer = compares(list_of_function(alloc)?, longer(alloc), false)?;
    expect_met(&rt, is_list_copied && is_text_copied && is_longer, 0);
    Ok(())
}
