//! The arguments of an operation, one by one.

ghost use Rattle.std.specs.Prelude.{◌≡◌, map};
ghost use Rattle.lang_meaning.specs.PureOperations.{argument};
ghost use Rattle.page_values.specs.Seen.{seen};

use page_values::Value;

/// The first argument, unit where there is none.
pub fn first(args: Vec<Value>) -> Value
    ensures { seen result ≡ argument (map seen args.items) 0 }
{
    let mut args = args.into_iter();
    args.next().unwrap_or(Value::Unit)
}

/// The first two arguments, unit where one is missing.
pub fn first_two(args: Vec<Value>) -> (Value, Value)
    ensures first { seen result.0 ≡ argument (map seen args.items) 0 }
    ensures second { seen result.1 ≡ argument (map seen args.items) 1 }
{
    let mut args = args.into_iter();
    let first = args.next().unwrap_or(Value::Unit);
    let second = args.next().unwrap_or(Value::Unit);
    (first, second)
}

/// The first three arguments, unit where one is missing.
pub fn first_three(args: Vec<Value>) -> (Value, Value, Value)
    ensures first { seen result.0 ≡ argument (map seen args.items) 0 }
    ensures second { seen result.1 ≡ argument (map seen args.items) 1 }
    ensures third { seen result.2 ≡ argument (map seen args.items) 2 }
{
    let mut args = args.into_iter();
    let first = args.next().unwrap_or(Value::Unit);
    let second = args.next().unwrap_or(Value::Unit);
    let third = args.next().unwrap_or(Value::Unit);
    (first, second, third)
}

/// The first four arguments, unit where one is missing.
pub fn first_four(args: Vec<Value>) -> (Value, Value, Value, Value)
    ensures first { seen result.0 ≡ argument (map seen args.items) 0 }
    ensures second { seen result.1 ≡ argument (map seen args.items) 1 }
    ensures third { seen result.2 ≡ argument (map seen args.items) 2 }
    ensures fourth { seen result.3 ≡ argument (map seen args.items) 3 }
{
    let mut args = args.into_iter();
    let first = args.next().unwrap_or(Value::Unit);
    let second = args.next().unwrap_or(Value::Unit);
    let third = args.next().unwrap_or(Value::Unit);
    let fourth = args.next().unwrap_or(Value::Unit);
    (first, second, third, fourth)
}
