//! Listeners by their registrations, found also by their target and name.
ghost use Rattle.std.specs.Prelude.{◌≡◌, OnOk, OnErr, IfOk};
ghost use Rattle.std.specs.BTreeMap.{values};
ghost use Rattle.page_parts.specs.Words.{has_number};
ghost use Rattle.keyed_list.specs.Listed.{keys_in, others};
ghost use Rattle.page_events.specs.Seen.{AddsListener};
ghost use Rattle.page_events.specs.Indexed.{AreKinds, AddsRegistration, RemovesRegistration, SameRegistrations};

use crate::MemoryFault;
use crate::listener::Kind;
use keyed_list::KeyedList;
use std::alloc::Global;
use std::collections::{BTreeMap, VecDeque};

// The kinds of the listeners, by their registrations.
pub(crate) type Listed = KeyedList<Kind>;

// The registrations of the listeners of a kind, by their places.
pub(crate) type Kinds = BTreeMap<Kind, BTreeMap<u64, u32>>;

// Notes the registration of a listener of a kind.
fn note_kind(
    alloc: Global,
    kinds: &mut Kinds,
    kind: Kind,
    place: u64,
    registration: u32,
) -> Result<(), MemoryFault>
    ensures noted { OnOk result (AddsRegistration kind place registration kinds.old kinds.new) }
    ensures err { OnErr result (SameRegistrations kinds.old kinds.new) }
{
    if let Some(own) = kinds.get_mut(&kind) {
        own.insert(place, registration)?;
        return Ok(());
    }
    let mut own = BTreeMap::new(alloc);
    own.insert(place, registration)?;
    kinds.insert(kind, own)?;
    Ok(())
}

// Forgets the registration of a listener of a kind, and the kind with its last one.
fn forget_kind(kinds: &mut Kinds, kind: &Kind, place: u64)
    ensures { RemovesRegistration kind.now place kinds.old kinds.new }
{
    let Some(own) = kinds.get_mut(kind) else {
        return;
    };
    own.remove(&place);
    if own.is_empty() {
        kinds.remove(kind);
    }
}

// Adds a listener behind all others, whose kind is handed in twice, since both keep it.
pub(crate) fn put(
    alloc: Global,
    listed: &mut Listed,
    kinds: &mut Kinds,
    registration: u32,
    own: Kind,
    kind: Kind,
) -> Result<(), MemoryFault>
    requires kinds { AreKinds listed.old kinds.old }
    requires signal { kind.signal ≡ own.signal }
    requires name { kind.name.items ≡ own.name.items }
    ensures put { OnOk result (AddsListener registration own listed.old listed.new) }
    ensures err { OnErr result (listed.new ≡ listed.old) }
    ensures kinds { AreKinds listed.new kinds.new }
{
    let key = u64::from(registration);
    let place = listed.push(key, own)?;
    if let Err(fault) = note_kind(alloc, kinds, kind, place, registration) {
        listed.take_last(key);
        return Err(fault);
    }
    Ok(())
}

// Takes the listeners of a registration out. True exactly where there were any.
pub(crate) fn take_out(listed: &mut Listed, kinds: &mut Kinds, registration: u32) -> bool
    requires kinds { AreKinds listed.old kinds.old }
    ensures was { result ≡ has_number (keys_in listed.old) registration }
    ensures gone { listed.new ≡ others registration listed.old }
    ensures kinds { AreKinds listed.new kinds.new }
{
    let key = u64::from(registration);
    let mut was = false;
    while let Some(taken) = listed.take_last(key) {
        forget_kind(kinds, &taken.item, taken.place);
        was = true;
    }
    was
}

// The registrations of the listeners of a kind, in the order of adding.
pub(crate) fn registrations(
    alloc: Global,
    own: &BTreeMap<u64, u32>,
) -> Result<VecDeque<u32>, MemoryFault>
    ensures { IfOk result (λ left. left.items ≡ values own.now) }
{
    let mut left = VecDeque::new(alloc);
    for registration in own.values() {
        left.push_back(*registration)?;
    }
    Ok(left)
}
