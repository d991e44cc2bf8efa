//! What comes due, in rows of one moment each.
ghost use Rattle.std.specs.Prelude.{◌≡◌, [], OnOk, OnErr};
ghost use Rattle.std.specs.Option.{option_map};
ghost use Rattle.timer_map.specs.Rows.{values_of_rows, AreFilled, with_due, first_due, after_first, TakesBack, AddsDue};

use crate::MemoryFault;
use page_base::Micros;
use std::alloc::Global;
use std::collections::{BTreeMap, VecDeque};
use std::marker::Model;

// Rows of values, each under its moment.
type Rows<V> = BTreeMap<Micros, VecDeque<V>>;

/// Values that come due, each at its moment. They are seen as a list in the order in which they do so: the earlier moment first,
/// and of one moment the value that was added first.
///
/// Those of one moment stand in a row, so what comes due one after another lies side by side. A call costs at most the logarithm
/// of the number of moments, but for the growth of a row.
#[derive(Drop)]
pub struct DueRows<V> {
    rows: Rows<V>,
    alloc: Global,
}

impl<V> Model for DueRows<V> {
    ghost use Rattle.std.specs.Prelude.{ℕ, List};
    ghost use Rattle.timer_map.specs.Rows.{values_of_rows, AreFilled};

    ghost Value = { List (ℕ × V) };

    ghost view = { λ it. values_of_rows it.rows.entries };

    ghost invariant = { λ it. AreFilled it.rows.entries };
}

// Adds a value to the row of its moment, or as the first one of a new row.
fn add_to_row<V: Copy>(
    alloc: Global,
    rows: &mut Rows<V>,
    due: Micros,
    value: V,
) -> Result<(), MemoryFault>
    requires { AreFilled rows.old.entries }
    ensures added { OnOk result (AddsDue due.0 value rows.old.entries rows.new.entries) }
    ensures filled { AreFilled rows.new.entries }
    ensures err { OnErr result (values_of_rows rows.new.entries ≡ values_of_rows rows.old.entries) }
{
    if let Some(row) = rows.get_mut(&due) {
        row.push_back(value)?;
        return Ok(());
    }
    let mut row = VecDeque::new(alloc);
    row.push_back(value)?;
    rows.insert(due, row)?;
    Ok(())
}

// Takes the first value of the row of a moment, which is the first one, and the row with its last value.
fn take_from_row<V: Copy>(rows: &mut Rows<V>, due: Micros) -> Option<V>
    requires filled { AreFilled rows.old.entries }
    requires first { option_map (λ e. e.0) (first_due (values_of_rows rows.old.entries)) ≡ Some due.0 }
    ensures value { result ≡ option_map (λ e. e.1) (first_due (values_of_rows rows.old.entries)) }
    ensures left { values_of_rows rows.new.entries ≡ after_first (values_of_rows rows.old.entries) }
    ensures filled { AreFilled rows.new.entries }
{
    let row = rows.get_mut(&due)?;
    let first = row.pop_front();
    if row.is_empty() {
        rows.remove(&due);
    }
    first
}

// Takes back the value that was added last, to the row of this moment.
fn take_back_from_row<V: Copy>(rows: &mut Rows<V>, due: Micros)
    requires { AreFilled rows.old.entries }
    ensures back { TakesBack due.0 (values_of_rows rows.old.entries) (values_of_rows rows.new.entries) }
    ensures filled { AreFilled rows.new.entries }
{
    let Some(row) = rows.get_mut(&due) else {
        return;
    };
    row.pop_back();
    if row.is_empty() {
        rows.remove(&due);
    }
}

impl<V: Copy> DueRows<V> {
    /// No value. Takes no memory.
    pub fn new(alloc: Global) -> DueRows<V>
        ensures { result ≡ [] }
    {
        DueRows {
            rows: BTreeMap::new(alloc),
            alloc,
        }
    }

    /// One more value, which comes due at this moment. An error leaves all as it was.
    pub fn add(&mut self, due: Micros, value: V) -> Result<(), MemoryFault>
        ensures added { OnOk result (self.new ≡ with_due due.0 value self.old) }
        ensures err { OnErr result (self.new ≡ self.old) }
    {
        add_to_row(self.alloc, &mut self.rows, due, value)
    }

    /// The moment at which the first value comes due, none exactly where there is none. Takes no memory.
    pub fn next_due(&self) -> Option<Micros>
        ensures { option_map (λ moment. moment.0) result ≡ option_map (λ e. e.0) (first_due self.now) }
    {
        let (due, _) = self.rows.first_key_value()?;
        Some(*due)
    }

    /// Takes the first value, whenever it comes due. None exactly where there is none. Takes no memory.
    pub fn take_first(&mut self) -> Option<V>
        ensures value { result ≡ option_map (λ e. e.1) (first_due self.old) }
        ensures left { self.new ≡ after_first self.old }
    {
        let due = self.next_due()?;
        take_from_row(&mut self.rows, due)
    }

    /// Takes back the value that was added last, at this moment: all is as it was before. Takes no memory.
    ///
    /// Nothing is promised where no value was added at this moment.
    pub fn take_back(&mut self, due: Micros)
        ensures { TakesBack due.0 self.old self.new }
    {
        take_back_from_row(&mut self.rows, due);
    }
}
