//! The list of all outcomes.

ghost use Rattle.std.specs.Prelude.{◌≡◌, ◌+◌, OnOk};
ghost use Rattle.page_parts.specs.Kinds.{weight};
ghost use Rattle.page_values.specs.Made.{IsMade};
ghost use Rattle.promise_combine.specs.Seen.{kind_seen, outcomes_with};
ghost use Rattle.promise_combine.specs.Answers.{item_for, list_by, HasLast, IsListed, IsRefusal};

use crate::kind::{Kind, item_of, settled_with};
use page_values::{
    FaultName, MemoryFault, TooHeavy, Value, ValueFault, WEIGHT_LIMIT, fault, make_list, weight,
};
use promise_core::Settled;
use std::alloc::Global;

// How the list of all outcomes, where the outcome at one place is another, settles the promise.
pub(crate) fn answer_of_all(
    alloc: Global,
    kind: &Kind,
    outcomes: &[Settled],
    place: u32,
    outcome: &Settled,
) -> Result<Settled, MemoryFault>
    ensures { IsListed result (kind_seen kind.now) (outcomes_with outcomes.now place outcome.now) }
{
    match listed(alloc, kind, outcomes, place, outcome) {
        Ok(list) => Ok(settled_with(kind, list)),
        Err(ValueFault::Is(_)) => Ok(Err(fault(alloc, FaultName::RangeError))),
        Err(ValueFault::OutOfMemory) => Err(MemoryFault::OutOfMemory),
    }
}

// The list of what stands for each outcome, by place, where the outcome at one place is another.
//
// It ends at the first item with which the list is too heavy, so that no more is copied than a list may weigh and one item
// besides.
fn listed(
    alloc: Global,
    kind: &Kind,
    outcomes: &[Settled],
    place: u32,
    outcome: &Settled,
) -> Result<Value, ValueFault>
    ensures { IsMade result (list_by (kind_seen kind.now) (outcomes_with outcomes.now place outcome.now)) }
{
    let mut items = Vec::with_capacity(alloc, outcomes.len())?;
    let mut room = WEIGHT_LIMIT - 1;
    for (at, earlier) in outcomes.iter().enumerate() {
        let reported = if at == place as usize {
            outcome
        } else {
            earlier
        };
        push_item(alloc, kind, reported, &mut items, &mut room)?;
    }
    make_list(items)
}

// Appends what stands for an outcome, and takes its weight from the room that is left.
fn push_item(
    alloc: Global,
    kind: &Kind,
    outcome: &Settled,
    items: &mut Vec<Value>,
    room: &mut u64,
) -> Result<(), ValueFault>
    ensures pushed { OnOk result (HasLast items.old.items items.new.items (item_for kind.now outcome.now)) }
    ensures taken { OnOk result (weight (item_for kind.now outcome.now) + room.new ≡ room.old) }
    ensures refused { IsRefusal result room.old (item_for kind.now outcome.now) }
{
    let item = item_of(alloc, kind, outcome)?;
    let taken = weight(&item);
    if *room < taken {
        return Err(ValueFault::Is(TooHeavy));
    }
    *room -= taken;
    items.push(item)?;
    Ok(())
}
