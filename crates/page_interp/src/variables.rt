//! Variables.

ghost use Rattle.std.specs.Prelude.{◌≡◌, ◌<◌, Some, None, IfOk, IfSome, IfNone, true, false, length};
ghost use Rattle.std.specs.Option.{option_map};
ghost use Rattle.page_values.specs.Seen.{seen};
ghost use Rattle.page_values.specs.declared.Value.TheVariants as value;
ghost use Rattle.page_interp.specs.Places.{place_of};
ghost use Rattle.page_interp.specs.Runs.{value_left};
ghost use Rattle.page_interp.specs.Variables.{value_at, has_variable, IsWritten, SetsLocal, SetsGlobal, StandsFor, NameGives, AreFilled, EmptiesGlobal};

use crate::code::Code;
use crate::exit::{Exit, Store};
use crate::names::Names;
use crate::values::copied;
use lang_ast::Named;
use page_values::{FaultName, MemoryFault, Str, Value, fault, function_value};
use std::alloc::Global;
use std::mem;

/// Where the variable of this name stands, likely at the given place. None exactly where there is no
/// such variable.
fn place_in(names: &Names, values: &Vec<Value>, name: &Str, near: usize) -> Option<usize>
    ensures some { IfSome result (λ place. place_of names.now name.now ≡ Some place) }
    ensures within { IfSome result (λ place. place < length values.now.items) }
    ensures none { IfNone result (value_at names.now values.now name.now ≡ None) }
{
    if values.is_empty() {
        return None;
    }
    let Some(place) = names.place_near(name, near) else {
        return None;
    };
    if place < values.len() {
        return Some(place);
    }
    None
}

/// The value of the variable of this name, which likely stands at the given place.
pub fn find<'a>(names: &Names, values: &'a Vec<Value>, name: &Str, near: usize) -> Option<&'a Value>
    ensures { option_map (λ v. seen v.now) result ≡ value_at names.now values.now name.now }
{
    match place_in(names, values, name, near) {
        Some(place) => Some(&values[place]),
        None => None,
    }
}

/// What a variable of this name holds.
fn read(
    alloc: Global,
    names: &Names,
    values: &Vec<Value>,
    name: &Str,
    near: usize,
) -> Result<Option<Value>, MemoryFault>
    ensures { IfOk result (λ o. option_map seen o ≡ value_at names.now values.now name.now) }
{
    match find(names, values, name, near) {
        Some(value) => Ok(Some(copied(alloc, value)?)),
        None => Ok(None),
    }
}

/// The variable takes the value: a local one, or else a global one.
pub fn assign(
    code: &Code,
    store: &mut Store,
    names: &Names,
    locals: &mut Vec<Value>,
    name: &Named,
    value: Value,
)
    ensures locals { SetsLocal names.now locals.old name.now.name value locals.new }
    ensures globals { SetsGlobal code.now names.now locals.old store.old name.now.name value store.new }
    ensures fuel { store.new.fuel ≡ store.old.fuel }
{
    let near = code.likely_place(name);
    match place_in(names, locals, &name.name, near) {
        Some(place) => locals[place] = value,
        None => match place_in(code.globals(), &store.globals, &name.name, near) {
            Some(place) => store.globals[place] = value,
            None => drop(value),
        },
    }
}

/// What a name stands for: a local variable, a global one or a function.
pub fn named(
    code: &Code,
    store: &Store,
    names: &Names,
    locals: &Vec<Value>,
    name: &Named,
) -> Result<Option<Value>, MemoryFault>
    ensures { IfOk result (StandsFor code.now store.now names.now locals.now name.now.name) }
{
    let near = code.likely_place(name);
    if let Some(value) = read(code.alloc(), names, locals, &name.name, near)? {
        return Ok(Some(value));
    }
    if let Some(value) = read(
        code.alloc(),
        code.globals(),
        &store.globals,
        &name.name,
        near,
    )? {
        return Ok(Some(value));
    }
    match code.number_of(&name.name) {
        Some(function) => Ok(Some(function_value(code.alloc(), function))),
        None => Ok(None),
    }
}

/// The value that a name stands for.
pub fn name_value<S: Drop>(
    code: &Code,
    store: &Store,
    names: &Names,
    locals: &Vec<Value>,
    name: &Named,
) -> Result<Value, Exit<S>>
    ensures { NameGives code.now store.now names.now locals.now name.now.name (value_left result) }
{
    match named(code, store, names, locals, name) {
        Ok(Some(v)) => Ok(v),
        Ok(None) => Err(Exit::Throw(fault(code.alloc(), FaultName::TypeError))),
        Err(_) => Err(Exit::OutOfMemory),
    }
}

/// The variables of a call: the parameters with their arguments, and then those that the body
/// gives. Surplus arguments are dropped, and the rest is unit.
pub fn locals_for(
    parameters: usize,
    names: &Names,
    args: Vec<Value>,
) -> Result<Vec<Value>, MemoryFault>
    ensures { IfOk result (AreFilled names.now parameters args) }
{
    let mut locals = args;
    locals.truncate(parameters);
    while locals.len() < names.len() {
        locals.push(Value::Unit)?;
    }
    Ok(locals)
}

/// A variable of the innermost call takes the value, where it has one of this name. Whether it has.
pub fn set_own(
    code: &Code,
    names: &Names,
    locals: &mut Vec<Value>,
    name: &Named,
    value: Value,
) -> bool
    ensures written { result ≡ true → IsWritten names.now locals.old name.now.name value locals.new }
    ensures there { result ≡ true → has_variable names.now locals.old name.now.name ≡ true }
    ensures not { result ≡ false → locals.new ≡ locals.old }
{
    match place_in(names, locals, &name.name, code.likely_place(name)) {
        Some(place) => {
            locals[place] = value;
            true
        }
        None => {
            drop(value);
            false
        }
    }
}

/// Takes what a variable holds, and leaves unit in its place: a local one, or else a global one.
pub fn take(
    code: &Code,
    store: &mut Store,
    names: &Names,
    locals: &mut Vec<Value>,
    name: &Named,
) -> Option<Value>
    ensures taken { IfSome result (λ v.
        StandsFor code.now store.old names.now locals.old name.now.name (Some v)) }
    ensures locals { IfSome result (λ _.
        SetsLocal names.now locals.old name.now.name value.Unit locals.new) }
    ensures globals { IfSome result (λ _.
        EmptiesGlobal code.now names.now locals.old store.old name.now.name store.new) }
    ensures fuel { store.new.fuel ≡ store.old.fuel }
    ensures same_store { IfNone result (store.new ≡ store.old) }
    ensures same_locals { IfNone result (locals.new ≡ locals.old) }
{
    let near = code.likely_place(name);
    if let Some(place) = place_in(names, locals, &name.name, near) {
        return Some(mem::replace(&mut locals[place], Value::Unit));
    }
    match place_in(code.globals(), &store.globals, &name.name, near) {
        Some(place) => Some(mem::replace(&mut store.globals[place], Value::Unit)),
        None => None,
    }
}
