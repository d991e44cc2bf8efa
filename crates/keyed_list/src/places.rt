//! The places of the items with a key.
ghost use Rattle.std.specs.Prelude.{◌≡◌, [], not, OnOk, OnErr, IfSome, IfNone};
ghost use Rattle.page_parts.specs.Words.{is_empty};
ghost use Rattle.keyed_list.specs.Listed.{places_of, AddsPlace, DropsPlace, SamePlaces};

use crate::MemoryFault;
use std::alloc::Global;
use std::collections::BTreeMap;

// The places of the items with a key, in order.
pub(crate) type Places = BTreeMap<u64, Vec<u64>>;

// Whether a key has a place.
pub(crate) fn has_places(places: &Places, key: u64) -> bool
    ensures { result ≡ not (is_empty (places_of places.now key)) }
{
    match places.get(&key) {
        Some(own) => !own.is_empty(),
        None => false,
    }
}

// Notes the place of the last item with a key.
pub(crate) fn note(
    alloc: Global,
    places: &mut Places,
    key: u64,
    place: u64,
) -> Result<(), MemoryFault>
    ensures noted { OnOk result (AddsPlace key place places.old places.new) }
    ensures err { OnErr result (SamePlaces places.old places.new) }
{
    if let Some(own) = places.get_mut(&key) {
        own.push(place)?;
        return Ok(());
    }
    let mut own = Vec::new(alloc);
    own.push(place)?;
    places.insert(key, own)?;
    Ok(())
}

// Drops the place of the last item with a key, and the key with its last place.
pub(crate) fn drop_last(places: &mut Places, key: u64) -> Option<u64>
    ensures dropped { IfSome result (λ place. DropsPlace key place places.old places.new) }
    ensures none { IfNone result (places_of places.old key ≡ []) }
    ensures kept { IfNone result (SamePlaces places.old places.new) }
{
    let own = places.get_mut(&key)?;
    let place = own.pop();
    if own.is_empty() {
        places.remove(&key);
    }
    place
}
