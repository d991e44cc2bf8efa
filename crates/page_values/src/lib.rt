//! The values of a script: their weight, equality, copies and spelling, and the calls that make one within the limits.
//!
//! A value is seen as a value of the definitions in `page_types`, by `specs/Seen.antt`. What the types keep of
//! themselves stands in `specs/Texts.antt`, `specs/Limits.antt` and `specs/Names.antt`.
#![tactic(auto)]

ghost use Rattle.std.specs.Prelude.{◌≡◌, ℕ, IsTrue};
ghost use Rattle.page_types.specs.Values.{no_values};
ghost use Rattle.page_values.specs.Limits.{AreLight};
ghost use Rattle.page_values.specs.Measured.{AreMeasured};
ghost use Rattle.page_values.specs.Plain.{are_plain};
ghost use Rattle.page_values.specs.Seen.{seen_all};
ghost use Rattle.page_values.specs.Texts.{is_text};
ghost use Rattle.page_values.specs.Written.{AreNumbered};

mod comparing;
mod copying;
mod faults;
mod kinds;
mod limits;
mod printing;
mod weighing;

pub use comparing::{is_word, same, same_text};
pub use copying::{copy, copy_items, copy_text};
pub use faults::{TooHeavy, ValueFault};
pub use kinds::{
    as_bool, as_controller, as_deadline, as_fault, as_function, as_int, as_list, as_promise,
    as_signal, as_text, is_unit,
};
pub use limits::{
    NESTING_LIMIT, WEIGHT_LIMIT, bind, fault, function_value, join, make_list, make_text, push,
};
pub use page_base::MemoryFault;
pub use page_types::FaultName;
pub use printing::{FunNames, print, print_int, print_number, print_quoted};
use std::alloc::Global;
use std::marker::Model;
use weighing::{Measure, measure_of};
pub use weighing::{nesting, weight};

/// A text. Each of its bytes is LF or from 0x20 to 0x7E.
#[derive(Drop)]
pub struct Str {
    bytes: Vec<u8>,
}

impl Model for Str {
    ghost use Rattle.std.specs.Prelude.{◌≡◌, List, ℕ, IsTrue};
    ghost use Rattle.page_values.specs.Texts.{is_text};

    ghost Value = { List ℕ };

    ghost view = { λ a. a.bytes.items };

    ghost invariant = { λ a. IsTrue (is_text a.bytes.items) };
}

/// The items of a list, or the arguments bound to a function. Together they weigh at most 65,535, and in each of them
/// lists and bound lists nest at most 63 deep. What they weigh, how deep they nest and whether they are plain is kept
/// beside them.
#[cycle(value)]
#[derive(Drop)]
pub struct Items {
    items: Vec<Value>,
    measure: Measure,
}

/// A function by its number, counted from 0 in the order of the script's text, and the arguments bound to it.
#[cycle(value)]
#[derive(Drop)]
pub struct Func {
    pub function: u32,
    pub bound: Items,
}

/// A value of a script. Promises, signals and controllers are numbers that the page has handed out.
#[cycle(value)]
#[derive(Drop)]
pub enum Value {
    Unit,
    Bool(bool),
    Int(i64),
    Text(Str),
    List(Items),
    Fun(Func),
    Promise(u32),
    Signal(u32),
    Controller(u32),
    /// The deadline of an idle period, or one that is fixed at a time in microseconds.
    Deadline(Option<u64>),
    Fault(FaultName, Str),
}

impl Model for Items {
    ghost use Rattle.std.specs.Prelude.{◌≡◌, ℕ, map};
    ghost use Rattle.page_types.specs.Values.{Values, values_of};
    ghost use Rattle.page_types.specs.ValueCode.{coded_values};
    ghost use Rattle.page_parts.specs.Kinds.{all_weights};
    ghost use Rattle.page_values.specs.Measured.{AreMeasured};

    ghost Value = { Values };

    ghost coded = { coded_values };

    ghost use Rattle.page_values.specs.Seen.{seen, seen_all};

    ghost view = { λ a. seen_all a.items.items };

    ghost invariant = { λ a. AreMeasured (seen_all a.items.items) a.measure };

    ghost size = { all_weights };

    ghost use native.Mathlib.Omega.{arith};
    ghost use Rattle.page_values.specs.Falls.{fits};

    ghost size_decreases = { λ a h. Prim.omega (arith, fits a.items.items) };
}

impl Str {
    /// The text of these bytes. It takes no memory.
    pub fn new(bytes: Vec<u8>) -> Str
        requires { IsTrue (is_text bytes.items) }
        ensures { result ≡ bytes.items }
    {
        Str { bytes }
    }

    pub fn bytes(&self) -> &[u8]
        ensures bytes { result.now ≡ self.now }
        ensures text { IsTrue (is_text self.now) }
    {
        &self.bytes
    }

    /// The bytes themselves, with no copy.
    pub fn into_bytes(self) -> Vec<u8>
        ensures bytes { result.items ≡ self }
        ensures text { IsTrue (is_text self) }
    {
        self.bytes
    }
}

impl Items {
    /// These items. It takes no memory, and costs a step for each item. [`make_list`] tests the condition.
    pub fn new(items: Vec<Value>) -> Items
        requires { AreLight (seen_all items.items) }
        ensures { result ≡ seen_all items.items }
    {
        let measure = measure_of(&items).unwrap();
        Items { items, measure }
    }

    /// No items. It takes no memory.
    fn none(alloc: Global) -> Items
        ensures { result ≡ no_values }
    {
        Items {
            items: Vec::new(alloc),
            measure: Measure::of_none(),
        }
    }

    pub fn items(&self) -> &[Value]
        ensures items { seen_all result.now ≡ self.now }
        ensures light { AreLight self.now }
    {
        &self.items
    }

    /// The items themselves, with no copy.
    pub fn into_items(self) -> Vec<Value>
        ensures items { seen_all result.items ≡ self }
        ensures light { AreLight self }
    {
        self.items
    }

    fn measure(&self) -> Measure
        ensures { AreMeasured self.now result }
    {
        self.measure
    }

    /// Whether none of the items is or holds a function, a promise, a signal or a controller. It costs one step.
    pub fn is_plain(&self) -> bool
        ensures plain { result ≡ are_plain self.now }

        // Each function that they name is there, however few there are.
        ensures numbered { IsTrue result → (count : ℕ) → AreNumbered count self.now }
    {
        self.measure.plain
    }
}
