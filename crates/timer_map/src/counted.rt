//! What stands for numbers that are counted up, each at its place in a row.
ghost use Rattle.std.specs.Prelude.{◌≡◌, ◌<◌, length, nat_eq, OnOk};
ghost use Rattle.std.specs.List.Sorted.{IsPermutation};
ghost use Rattle.std.specs.Map.{lookup, remove_entry};
ghost use Rattle.timer_map.specs.Counted.{entries_of, with_value};

use crate::MemoryFault;

/// What some numbers have that are counted up, each at its own place: so what follows one another lies side by side, and no number
/// is sought. There is a place for each number up to the greatest one that had something.
pub type Counted<V> = Vec<Option<V>>;

/// Makes a place for a number, and for each one below it, where there is none. Each number keeps what it has.
pub fn make_place<V: Copy>(places: &mut Counted<V>, number: u32) -> Result<(), MemoryFault>
    ensures same { entries_of places.new.items ≡ entries_of places.old.items }
    ensures placed { OnOk result (number < length places.new.items) }
{
    while places.len() <= number as usize {
        places.push(None)?;
    }
    Ok(())
}

/// A number that has a place has this value now. Takes no memory.
pub fn put<V: Copy>(places: &mut Counted<V>, number: u32, value: V)
    requires placed { number < length places.old.items }
    ensures { IsPermutation (with_value number value (entries_of places.old.items)) (entries_of places.new.items) }
{
    places[number as usize] = Some(value);
}

/// A number has nothing now; what it had. Takes no memory.
pub fn take<V: Copy>(places: &mut Counted<V>, number: u32) -> Option<V>
    ensures value { result ≡ lookup (nat_eq number) (entries_of places.old.items) }
    ensures left { entries_of places.new.items ≡ remove_entry (nat_eq number) (entries_of places.old.items) }
{
    if places.len() <= number as usize {
        return None;
    }
    let value = places[number as usize];
    places[number as usize] = None;
    value
}

/// What a number has. Takes no memory.
pub fn value_of<V: Copy>(places: &Counted<V>, number: u32) -> Option<V>
    ensures { result ≡ lookup (nat_eq number) (entries_of places.now.items) }
{
    if places.len() <= number as usize {
        return None;
    }
    places[number as usize]
}
