//! The spelling of values.

ghost use Rattle.std.specs.Prelude.{◌≡◌, ◌++◌, ◌≤◌, ℕ, [], IfOk, OnOk, OnErr, IsTrue, slice_get, unwrap_or};
ghost use Rattle.page_types.specs.Values.{DeadlineValue};
ghost use Rattle.page_parts.specs.Spelling.{spelled, all_spelled, all_escaped, quoted, fault_text, deadline_text};
ghost use Rattle.page_parts.specs.Words.{decimal_of, int_decimal};
ghost use Rattle.page_values.specs.Names.{are_names};
ghost use Rattle.page_parts.specs.Kinds.{nesting, greatest_nesting};
ghost use Rattle.page_values.specs.Seen.{seen};
ghost use Rattle.page_values.specs.Spellings.{IsSpelledBy};
ghost use Rattle.page_values.specs.Texts.{is_text};
ghost use Rattle.page_values.specs.Written.{IsWritten, AreWritten};

use crate::{FaultName, Items, MemoryFault, Str, Value};
use itoa::Buffer;
use std::alloc::{AllocError, Global};
use std::marker::Model;

/// The names of a script's functions, in the order of their numbers. Each is a letter or `_`, then letters, digits and
/// `_`, at most 64 bytes in all.
#[derive(Drop)]
pub struct FunNames {
    names: Vec<Str>,
}

impl Model for FunNames {
    ghost use Rattle.std.specs.Prelude.{List, ℕ, IsTrue};
    ghost use Rattle.page_values.specs.Names.{are_names};

    ghost Value = { List (List ℕ) };

    ghost view = { λ a. a.names.items };

    ghost invariant = { λ a. IsTrue (are_names a.names.items) };
}

impl FunNames {
    /// These names. It takes no memory.
    pub fn new(names: Vec<Str>) -> FunNames
        requires { IsTrue (are_names names.items) }
        ensures { result ≡ names.items }
    {
        FunNames { names }
    }

    pub fn names(&self) -> &[Str]
        ensures names { result.now ≡ self.now }
        ensures spelled { IsTrue (are_names self.now) }
    {
        &self.names
    }
}

/// Appends the one spelling of a value. A fault leaves `into` as it was.
pub fn print(
    alloc: Global,
    value: &Value,
    names: &FunNames,
    into: &mut Vec<u8>,
) -> Result<(), MemoryFault>
    ensures ok { OnOk result (into.new.items ≡ into.old.items ++ spelled names.now (seen value.now)) }
    ensures err { OnErr result (into.new.items ≡ into.old.items) }

    // From the reader's side it is a value's spelling, where each function that the value names has a name.
    ensures spelling { OnOk result (IsSpelledBy names.now (seen value.now)) }
{
    let mut spelling = Vec::new(alloc);
    print_value(value, names.names(), &mut spelling)?;
    into.extend_from_slice(&spelling)?;
    Ok(())
}

#[cycle(print)]
fn print_value(value: &Value, names: &[Str], into: &mut Vec<u8>) -> Result<(), AllocError>
    ensures appended { IfOk result (λ _. into.new.items ≡ into.old.items ++ spelled names.now (seen value.now)) }
    ensures written { IfOk result (λ _. IsWritten (seen value.now)) }
    ensures flat { IfOk result (λ _. nesting (seen value.now) ≤ 64) }
{
    match value {
        Value::Unit => into.extend_from_slice(b"unit"),
        Value::Bool(true) => into.extend_from_slice(b"true"),
        Value::Bool(false) => into.extend_from_slice(b"false"),
        Value::Int(n) => print_int(*n, into),
        Value::Text(text) => print_text(text, into),
        Value::List(items) => {
            into.push(b'[')?;
            print_items(items, names, into)?;
            into.push(b']')?;
            Ok(())
        }
        Value::Fun(function) => {
            into.extend_from_slice(b"fn:")?;
            print_name(function.function, names, into)?;
            into.push(b'(')?;
            print_items(&function.bound, names, into)?;
            into.push(b')')?;
            Ok(())
        }
        Value::Promise(n) => print_numbered(b"promise#", *n, into),
        Value::Signal(n) => print_numbered(b"signal#", *n, into),
        Value::Controller(n) => print_numbered(b"controller#", *n, into),
        Value::Deadline(at) => print_deadline(*at, into),
        Value::Fault(name, text) => {
            print_fault_name(*name, into)?;
            into.push(b'(')?;
            print_text(text, into)?;
            into.push(b')')?;
            Ok(())
        }
    }
}

/// Appends the spellings of items, with a comma between each two.
#[cycle(print)]
fn print_items(items: &Items, names: &[Str], into: &mut Vec<u8>) -> Result<(), AllocError>
    ensures appended { IfOk result (λ _. into.new.items ≡ into.old.items ++ all_spelled names.now items.now) }
    ensures written { IfOk result (λ _. AreWritten items.now) }
    ensures flat { greatest_nesting items.now ≤ 63 }
{
    let mut first = true;
    for item in &items.items {
        if !first {
            into.push(b',')?;
        }
        print_value(item, names, into)?;
        first = false;
    }
    Ok(())
}

fn print_name(function: u32, names: &[Str], into: &mut Vec<u8>) -> Result<(), AllocError>
    ensures { IfOk result (λ _. into.new.items ≡ into.old.items ++ unwrap_or (slice_get names.now function) []) }
{
    match names.get(function as usize) {
        Some(name) => into.extend_from_slice(&name.bytes),
        None => Ok(()),
    }
}

fn print_numbered(word: &[u8], n: u32, into: &mut Vec<u8>) -> Result<(), AllocError>
    ensures { IfOk result (λ _. into.new.items ≡ into.old.items ++ (word.now ++ decimal_of n)) }
{
    into.extend_from_slice(word)?;
    print_number(n as u64, into)
}

fn print_deadline(at: Option<u64>, into: &mut Vec<u8>) -> Result<(), AllocError>
    ensures appended { IfOk result (λ _. into.new.items ≡ into.old.items ++ deadline_text at) }
    ensures written { IsWritten (DeadlineValue at) }
{
    match at {
        None => into.extend_from_slice(b"deadline"),
        Some(t) => {
            into.extend_from_slice(b"deadline@")?;
            print_number(t, into)
        }
    }
}

fn print_fault_name(name: FaultName, into: &mut Vec<u8>) -> Result<(), AllocError>
    ensures { IfOk result (λ _. into.new.items ≡ into.old.items ++ fault_text name) }
{
    into.extend_from_slice(match name {
        FaultName::Error => b"Error",
        FaultName::TypeError => b"TypeError",
        FaultName::RangeError => b"RangeError",
        FaultName::AbortError => b"AbortError",
        FaultName::TimeoutError => b"TimeoutError",
        FaultName::NotAllowedError => b"NotAllowedError",
    })
}

/// Appends a text in quotation marks.
fn print_text(text: &Str, into: &mut Vec<u8>) -> Result<(), AllocError>
    ensures appended { IfOk result (λ _. into.new.items ≡ into.old.items ++ quoted text.now) }
    ensures text { IfOk result (λ _. IsTrue (is_text text.now)) }
{
    print_quoted(text.bytes(), into)
}

/// Appends the spelling of the text with this value: in quotation marks, with `"`, `\` and LF escaped. On an error some of
/// it may have been appended.
pub fn print_quoted(text: &[u8], into: &mut Vec<u8>) -> Result<(), AllocError>
    ensures { IfOk result (λ _. into.new.items ≡ into.old.items ++ quoted text.now) }
{
    into.push(b'"')?;
    for b in text {
        match *b {
            b'"' => into.extend_from_slice(b"\\\"")?,
            b'\\' => into.extend_from_slice(b"\\\\")?,
            b'\n' => into.extend_from_slice(b"\\n")?,
            other => into.push(other)?,
        }
    }
    into.push(b'"')?;
    Ok(())
}

/// Appends the canonical decimal of a number, with a sign before a negative one. On an error some of it may have been
/// appended.
pub fn print_int(n: i64, into: &mut Vec<u8>) -> Result<(), AllocError>
    ensures { IfOk result (λ _. into.new.items ≡ into.old.items ++ int_decimal n) }
{
    if n < 0 {
        into.push(b'-')?;
    }
    print_number(n.unsigned_abs(), into)
}

/// Appends the canonical decimal of a number. On an error some of it may have been appended.
pub fn print_number(n: u64, into: &mut Vec<u8>) -> Result<(), AllocError>
    ensures { IfOk result (λ _. into.new.items ≡ into.old.items ++ decimal_of n) }
{
    let mut digits = Buffer::new();
    into.extend_from_slice(digits.format(n).as_bytes())?;
    Ok(())
}
