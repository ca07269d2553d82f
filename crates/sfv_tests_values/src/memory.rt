//! The memory of new values: none. The module `lengths` has copies and conversions.

use sfv::{GenericBareItem, InnerList, Item, String, dictionary, parameters};
use std::alloc::Global;

/// Returns `true` if a new map of parameters, and the map of a new item, have no capacity.
fn are_parameters_empty(alloc: Global) -> bool {
    let item = Item::new(alloc, GenericBareItem::Boolean(true));
    (parameters(alloc).capacity() == 0) & (item.params.capacity() == 0)
}

#[test]
fn new_values_have_no_memory(rt: HostRuntime) {
    let alloc = rt.alloc();
    let list = InnerList::empty(alloc);
    assert!(rt; String::empty(alloc).into_string().capacity() == 0);
    assert!(rt; (list.items.capacity() == 0) & (list.params.capacity() == 0));
    assert!(rt; dictionary(alloc).capacity() == 0);
    assert!(rt; are_parameters_empty(alloc));
}
