//! The laws of ordered lists. Each is the contract of an empty function, to be called where a proof needs the law. For a list,
//! `list_of places head` has the pairs of key and node, and `keys_of places head` has the keys.

ghost use Rattle.klist_core.specs.Laws.{ListsRise, ListsHoldPlaces, KeysHoldPlaces, ListsCountPlaces, InsertionChangesOneList, RemovalChangesOneList};

/// Each list, as contracts see it, is in ascending order of keys. So is a loose list, although its nodes are linked in the order
/// in which they were inserted.
pub fn lists_rise()
    ensures { ListsRise }
{}

/// A list has a pair of key and node if and only if the node is in this list under this key.
pub fn lists_hold_places()
    ensures { ListsHoldPlaces }
{}

/// The keys of a list are exactly the keys of its nodes.
pub fn keys_hold_places()
    ensures { KeysHoldPlaces }
{}

/// The number of pairs of a list, and of its keys, is the number of its nodes.
pub fn lists_count_places()
    ensures { ListsCountPlaces }
{}

/// An insertion of a node that is in no list, under a key that the list does not have, adds the pair of key and node to that list.
/// All other lists stay unchanged.
pub fn insertion_changes_one_list()
    ensures { InsertionChangesOneList }
{}

/// A removal takes the node's pair out of its list. All other lists stay unchanged.
pub fn removal_changes_one_list()
    ensures { RemovalChangesOneList }
{}
