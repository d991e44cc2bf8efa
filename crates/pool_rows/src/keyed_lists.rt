//! Lists whose items are removed by their keys.

use keyed_list::{KeyedList, MemoryFault};
use std::alloc::Global;

fn text(list: &KeyedList<char>, alloc: Global) -> Result<Vec<char>, MemoryFault> {
    let mut items = Vec::new(alloc);
    for keyed in list.walk() {
        items.push(keyed.item)?;
    }
    Ok(items)
}

#[test]
fn items_leave_by_their_keys(rt: HostRuntime) -> Result<(), MemoryFault> {
    let alloc = rt.alloc();
    let mut list = KeyedList::new(alloc);
    for (key, item) in [(7, 'a'), (8, 'b'), (7, 'c'), (9, 'd')] {
        list.push(key, item)?;
    }
    let last = list.take_last(7).map(|taken| taken.item);
    assert_eq!(rt; last, Some('c'));
    assert!(rt; list.remove(8));
    assert!(rt; !list.contains(8));
    assert_eq!(rt; text(&list, alloc)?.as_slice(), ['a', 'd'].as_slice());
    Ok(())
}
