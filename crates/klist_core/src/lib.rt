//! Many ordered lists of nodes in one table of links.
//!
//! Nodes, lists and keys are 32-bit numbers. A node is in at most one list, under a key. The keys of a
//! list ascend, and no two of its nodes have the same key. Each node has links to the previous and the
//! next node, and each list to its first and last node (Knuth, The Art of Computer Programming, 2.2.5).
//!
//! Lists come in threes: lists 0, 1 and 2, then lists 3, 4 and 5, and so on. The first list of each three is loose, and the other
//! two are linked by key. In contracts a loose list is a list like any other, in ascending order of keys. In the table, its nodes
//! are linked in the order in which they were inserted. A node that replaces another one ([`Lists::replace`]) is linked where
//! that node was. So an insertion takes constant time with any key, but a search for the least key visits all nodes of the table.
//!
//! Only [`Lists::new`] allocates.
#![tactic(auto)]

ghost use Rattle.std.specs.Prelude.{◌≡◌, ◌≢◌, ℕ, ◌+◌, ◌-◌, ◌^◌, ◌<◌, ◌≤◌, ◌↔◌, true, false, Some, None, length, IsTrue, IsSome, IfSome, IfOk, MatchOption, slice_get, replicate, count_by};
ghost use Rattle.std.specs.Option.{ForSome};
ghost use Rattle.klist_core.specs.Places.{ArePlaces, IsLoose, IsByKey, IsPlacedByKey, IsEmpty, IsFirst, NoneAbove, IsNext, NoneBelow, IsPrevious, place_at, is_in, inserted, removed, replaced};
ghost use Rattle.klist_core.specs.Lists.{list_of};
ghost use Rattle.klist_core.specs.Links.{free_node, head_at, up, down, IsNearest, IsGap, IsAfter, IsFollowing, IsStart};
ghost use Rattle.klist_core.specs.Writes.{heads_linked_after, heads_linked_before, nodes_linked_after, nodes_linked_before, heads_linked, nodes_linked, heads_unlinked, nodes_unlinked};

use std::alloc::{AllocError, Global};
use std::marker::Model;

pub mod laws;

/// An optional number of a node or a list, in four bytes. `u32::MAX` means none.
#[derive(Clone, Copy, Debug)]
struct Link {
    raw: u32,
}

impl Model for Link {
    ghost use Rattle.std.specs.Prelude.{ℕ, Option};
    ghost use Rattle.klist_core.specs.Raw.{to_option, to_raw, raw_stays};

    ghost Value = { Option ℕ };

    ghost view = { λ l. to_option l.raw };

    ghost inverse = { λ o. record { raw = to_raw o } };

    ghost inverse_ok = { λ l h i. record { raw = raw_stays l.raw i } };
}

impl Link {
    #[inline(always)]
    fn of(to: Option<u32>) -> Link
        requires { IfSome to (λ i. i < 2 ^ 32 - 1) }
        ensures { result ≡ to }
    {
        match to {
            Some(raw) => Link { raw },
            None => Link { raw: u32::MAX },
        }
    }

    #[inline(always)]
    fn get(self) -> Option<u32>
        ensures { result ≡ self }
    {
        if self.raw == u32::MAX {
            None
        } else {
            Some(self.raw)
        }
    }

    /// Returns true if this is a link to `number`. Takes one comparison.
    #[inline(always)]
    fn is(self, number: u32) -> bool
        requires { number < 2 ^ 32 - 1 }
        ensures { IsTrue result ↔ (self ≡ Some number) }
    {
        self.raw == number
    }
}

/// The two ends of a list and the number of its nodes.
#[derive(Clone, Copy, Debug)]
struct Head {
    first: Link,
    last: Link,
    len: u32,
}

/// The list and the key of a node, and its neighbours in the list: the nodes with the next smaller and the next greater key, or
/// in a loose list the nodes linked just before and after it. The key of a node that is in no list is 0 and means nothing.
#[derive(Clone, Copy, Debug)]
struct Node {
    list: Link,
    key: u32,
    previous: Link,
    next: Link,
}

impl Node {
    /// Returns a node that is in no list.
    #[inline(always)]
    fn free() -> Node
        ensures { result ≡ free_node }
    {
        let none = Link::of(None);
        Node {
            list: none,
            key: 0,
            previous: none,
            next: none,
        }
    }
}

/// Returns true if the list is loose: it is the first list of its three.
#[inline(always)]
pub fn is_loose(head: u32) -> bool
    ensures loose { IsTrue result → IsLoose head }
    ensures by_key { result ≡ false → IsByKey head }
{
    head % 3 == 0
}

/// Ordered lists over one table of nodes. Lists and nodes are numbered from 0. The number of a list is called its head.
#[derive(Debug, Drop)]
pub struct Lists {
    heads: Vec<Head>,
    nodes: Vec<Node>,
}

impl Model for Lists {
    ghost use Rattle.klist_core.specs.Places.{Placed};
    ghost use Rattle.klist_core.specs.Links.{shown, IsLinked};

    ghost Value = { Placed };

    ghost view = { λ s. shown s.heads.items s.nodes.items };

    ghost invariant = { λ s. IsLinked s.heads.items s.nodes.items };
}

impl Lists {
    /// Makes `heads` empty lists, and `nodes` nodes that are in none of them.
    ///
    /// Allocates all memory that will ever be used. Returns `AllocError` if the allocator refuses it.
    pub fn new(alloc: Global, nodes: u32, heads: u32) -> Result<Lists, AllocError>
        ensures { IfOk result (λ s. s ≡ record { heads = heads; places = replicate nodes None }) }
    {
        let none = Link::of(None);
        let head = Head {
            first: none,
            last: none,
            len: 0,
        };
        let node = Node::free();
        let heads = vec![in alloc; head; heads as usize]?;
        let nodes = vec![in alloc; node; nodes as usize]?;
        Ok(Lists { heads, nodes })
    }

    /// States the invariants of every table, and does nothing.
    pub fn laws(&self)
        ensures { ArePlaces self.now }
    {
        let _heads = &self.heads;
    }

    /// Returns the number of nodes of the table, whether or not they are in a list.
    pub fn nodes(&self) -> u32
        ensures { result ≡ length self.now.places }
    {
        self.laws();
        self.nodes.len() as u32
    }

    /// Returns the node's list and key, or `None` if it is in no list.
    pub fn place_of(&self, node: u32) -> Option<(u32, u32)>
        requires { node < length self.now.places }
        ensures { result ≡ place_at self.now.places node }
    {
        let node = &self.nodes[node as usize];
        let list = node.list.get()?;
        Some((list, node.key))
    }

    /// Returns true if the node is in the list.
    #[inline(always)]
    pub fn is_in(&self, node: u32, head: u32) -> bool
        requires node { node < length self.now.places }
        requires head { head < self.now.heads }
        ensures { result ≡ is_in head (place_at self.now.places node) }
    {
        self.nodes[node as usize].list.is(head)
    }

    /// Returns the number of nodes in the list.
    pub fn len(&self, head: u32) -> u32
        requires { head < self.now.heads }
        ensures length { result ≡ length (list_of self.now.places head) }
        ensures count { result ≡ count_by (is_in head) self.now.places }
    {
        let list = &self.heads[head as usize];
        list.len
    }

    /// Returns the least key of the list and its node, or `None` if the list is empty. For a loose list this visits all nodes of
    /// the table.
    pub fn first(&self, head: u32) -> Option<(u32, u32)>
        requires { head < self.now.heads }
        ensures head { result ≡ slice_get (list_of self.now.places head) 0 }
        ensures least { MatchOption result (IsEmpty self.now.places head) (λ p. IsFirst self.now.places head p.0 p.1) }
    {
        if is_loose(head) {
            self.first_at(head, self.least(head))
        } else {
            self.first_by_key(head)
        }
    }

    /// Returns what [`Lists::first`] returns, in constant time. The list must not be loose.
    #[inline(always)]
    pub fn first_by_key(&self, head: u32) -> Option<(u32, u32)>
        requires head { head < self.now.heads }
        requires by_key { IsByKey head }
        ensures head { result ≡ slice_get (list_of self.now.places head) 0 }
        ensures least { MatchOption result (IsEmpty self.now.places head) (λ p. IsFirst self.now.places head p.0 p.1) }
    {
        self.first_at(head, self.first_of(head))
    }

    /// Returns the least key of the list and its node, or `None` if the list is empty. The caller has already looked the node up,
    /// and passes it as `least` (`None` for an empty list).
    #[inline(always)]
    fn first_at(&self, head: u32, least: Option<u32>) -> Option<(u32, u32)>
        requires { IsNearest up (place_at self.now.places) head 0 least }
        ensures head { result ≡ slice_get (list_of self.now.places head) 0 }
        ensures least { MatchOption result (IsEmpty self.now.places head) (λ p. IsFirst self.now.places head p.0 p.1) }
    {
        self.laws();
        let node = least?;
        Some((self.key_of(node), node))
    }

    /// Returns some node of the list in constant time, or `None` if the list is empty.
    pub fn any(&self, head: u32) -> Option<u32>
        requires { head < self.now.heads }
        ensures { MatchOption result (IsEmpty self.now.places head) (λ n. is_in head (place_at self.now.places n) ≡ true) }
    {
        self.heads[head as usize].first.get()
    }

    /// Returns the key and the number of the next node in the list of `node`, or `None` if `node` is the last. The list must not
    /// be loose.
    pub fn after(&self, node: u32) -> Option<(u32, u32)>
        requires node { node < length self.now.places }
        requires placed { IsPlacedByKey self.now.places node }
        ensures { IfSome (place_at self.now.places node) (λ p.
            MatchOption result (NoneAbove self.now.places p.0 p.1) (λ q. IsNext self.now.places p.0 p.1 q.0 q.1)) }
    {
        let next = self.next_of(node)?;
        Some((self.key_of(next), next))
    }

    /// Returns the key and the number of the previous node in the list of `node`, or `None` if `node` is the first. The list must
    /// not be loose.
    pub fn before(&self, node: u32) -> Option<(u32, u32)>
        requires node { node < length self.now.places }
        requires placed { IsPlacedByKey self.now.places node }
        ensures { IfSome (place_at self.now.places node) (λ p.
            MatchOption result (NoneBelow self.now.places p.0 p.1) (λ q. IsPrevious self.now.places p.0 p.1 q.0 q.1)) }
    {
        self.laws();
        let previous = self.previous_of(node)?;
        Some((self.key_of(previous), previous))
    }

    /// Inserts a node that is in no list, under a key that the list does not have.
    ///
    /// Takes constant time in a loose list, and in any list if the key is below or above all keys of the list. Otherwise it
    /// searches the list, beginning at the first node, so use [`Lists::insert_near`] for a long list.
    #[inline(always)]
    pub fn insert(&mut self, head: u32, node: u32, key: u32)
        requires head { head < self.old.heads }
        requires node { node < length self.old.places }
        requires free { place_at self.old.places node ≡ None }
        requires fresh { (i : ℕ) → place_at self.old.places i ≢ Some (head, key) }
        ensures { self.new ≡ inserted self.old head node key }
    {
        let gap = if is_loose(head) {
            None
        } else {
            Some(self.gap(head, key))
        };
        self.put(head, node, key, gap);
    }

    /// Does what [`Lists::insert`] does. The list has to be loose.
    #[inline(always)]
    pub fn append(&mut self, head: u32, node: u32, key: u32)
        requires head { head < self.old.heads }
        requires loose { IsLoose head }
        requires node { node < length self.old.places }
        requires free { place_at self.old.places node ≡ None }
        requires fresh { (i : ℕ) → place_at self.old.places i ≢ Some (head, key) }
        ensures { self.new ≡ inserted self.old head node key }
    {
        self.put(head, node, key, None);
    }

    /// Inserts a node like [`Lists::insert`], but the search begins at the node `near` if `near` is in the list. Otherwise the
    /// search begins at the first or the last node of the list, whichever has the key nearer to `key`. The list must not be
    /// loose. Takes constant time if `near` becomes a neighbour of the new node. A bad hint only costs time.
    pub fn insert_near(&mut self, head: u32, node: u32, key: u32, near: u32)
        requires head { head < self.old.heads }
        requires by_key { IsByKey head }
        requires node { node < length self.old.places }
        requires free { place_at self.old.places node ≡ None }
        requires fresh { (i : ℕ) → place_at self.old.places i ≢ Some (head, key) }
        requires near { near < length self.old.places }
        ensures { self.new ≡ inserted self.old head node key }
    {
        if self.is_in(near, head) {
            self.insert_by(head, node, key, near);
        } else {
            let start = self.nearer_end(head, key);
            let gap = self.neighbours(head, key, start);
            self.put(head, node, key, Some(gap));
        }
    }

    /// Does what [`Lists::insert_near`] does. `near` has to be in the list.
    #[inline(always)]
    pub fn insert_by(&mut self, head: u32, node: u32, key: u32, near: u32)
        requires head { head < self.old.heads }
        requires by_key { IsByKey head }
        requires node { node < length self.old.places }
        requires free { place_at self.old.places node ≡ None }
        requires fresh { (i : ℕ) → place_at self.old.places i ≢ Some (head, key) }
        requires near { is_in head (place_at self.old.places near) ≡ true }
        ensures { self.new ≡ inserted self.old head node key }
    {
        if self.key_of(near) < key {
            let (previous, next) = self.gap_behind(head, key, near);
            self.put(head, node, key, Some((Some(previous), next)));
        } else {
            let gap = self.neighbours(head, key, Some(near));
            self.put(head, node, key, Some(gap));
        }
    }

    /// Replaces `node` by the node `by`, which is in no list. `by` gets the list, the key and the neighbours of `node`. `node` is
    /// then in no list. Takes constant time.
    pub fn replace(&mut self, node: u32, by: u32)
        requires node { node < length self.old.places }
        requires placed { IsSome (place_at self.old.places node) }
        requires by { by < length self.old.places }
        requires free { place_at self.old.places by ≡ None }
        ensures { self.new ≡ replaced self.old node by }
    {
        let heads: &mut [Head] = &mut self.heads;
        let nodes: &mut [Node] = &mut self.nodes;
        let own = nodes[node as usize];
        let (previous, next) = (own.previous.get(), own.next.get());
        let Some(head) = own.list.get() else {
            unreachable!()
        };
        unlink_node(heads, nodes, head, node, previous, next);
        link_node(heads, nodes, head, by, own.key, previous, next);
    }

    /// Removes a node from its list, in constant time.
    pub fn remove(&mut self, node: u32)
        requires node { node < length self.old.places }
        requires placed { IsSome (place_at self.old.places node) }
        ensures { self.new ≡ removed self.old node }
    {
        let heads: &mut [Head] = &mut self.heads;
        let nodes: &mut [Node] = &mut self.nodes;
        let own = nodes[node as usize];
        let (previous, next) = (own.previous.get(), own.next.get());
        let Some(head) = own.list.get() else {
            unreachable!()
        };
        unlink_node(heads, nodes, head, node, previous, next);
    }

    /// Inserts a node between the two nodes of `gap`, or at the end of a loose list if `gap` is `None`. If the first of the two
    /// is `None`, the new node becomes the first of the list. If the second is `None`, it becomes the last.
    fn put(&mut self, head: u32, node: u32, key: u32, gap: Option<(Option<u32>, Option<u32>)>)
        requires head { head < self.old.heads }
        requires node { node < length self.old.places }
        requires free { place_at self.old.places node ≡ None }
        requires fresh { (i : ℕ) → place_at self.old.places i ≢ Some (head, key) }
        requires gap { MatchOption gap (IsLoose head) (λ g. IsGap (place_at self.old.places) head key g) }
        ensures { self.new ≡ inserted self.old head node key }
    {
        self.laws();
        let (previous, next) = link_place(&self.heads, head, gap);
        let heads: &mut [Head] = &mut self.heads;
        let nodes: &mut [Node] = &mut self.nodes;
        link_node(heads, nodes, head, node, key, previous, next);
    }

    /// Returns the nodes between which a new key belongs; `None` means an end of the list. Tries the ends of the list first.
    #[inline(always)]
    fn gap(&self, head: u32, key: u32) -> (Option<u32>, Option<u32>)
        requires head { head < self.now.heads }
        requires by_key { IsByKey head }
        requires fresh { (i : ℕ) → place_at self.now.places i ≢ Some (head, key) }
        ensures previous { IsNearest down (place_at self.now.places) head (down key + 1) result.0 }
        ensures next { IsNearest up (place_at self.now.places) head (up key + 1) result.1 }
    {
        let Some(first) = self.first_of(head) else {
            return (None, None);
        };
        if key < self.key_of(first) {
            return (None, Some(first));
        }
        if let Some(last) = self.last_of(head)
            && self.key_of(last) < key
        {
            return (Some(last), None);
        }
        self.neighbours(head, key, Some(first))
    }

    /// Returns the nodes between which a new key belongs; `None` means an end of the list. The search begins at `start`, which is
    /// a node of the list, or `None` if the list is empty.
    fn neighbours(&self, head: u32, key: u32, start: Option<u32>) -> (Option<u32>, Option<u32>)
        requires head { head < self.now.heads }
        requires by_key { IsByKey head }
        requires fresh { (i : ℕ) → place_at self.now.places i ≢ Some (head, key) }
        requires start { IsStart (place_at self.now.places) head start }
        ensures previous { IsNearest down (place_at self.now.places) head (down key + 1) result.0 }
        ensures next { IsNearest up (place_at self.now.places) head (up key + 1) result.1 }
    {
        self.laws();
        let Some(from) = start else {
            return (None, None);
        };
        if self.key_of(from) < key {
            let next = self.first_above(head, key, from);
            (self.previous_or_last(head, next), next)
        } else {
            let previous = self.last_below(head, key, from);
            (previous, self.next_or_first(head, previous))
        }
    }

    /// Returns the first node of the list if its key is nearer to `key` than the key of the last node, or else the last node.
    /// Returns `None` if the list is empty.
    fn nearer_end(&self, head: u32, key: u32) -> Option<u32>
        requires head { head < self.now.heads }
        requires by_key { IsByKey head }
        ensures { IsStart (place_at self.now.places) head result }
    {
        let first = self.first_of(head)?;
        let last = self.last_of(head)?;
        if key.abs_diff(self.key_of(first)) < key.abs_diff(self.key_of(last)) {
            Some(first)
        } else {
            Some(last)
        }
    }

    /// Returns the last node of the list with a key below `key`, and the node after it. The search begins at `from`, whose key is
    /// below `key`.
    #[inline(always)]
    fn gap_behind(&self, head: u32, key: u32, from: u32) -> (u32, Option<u32>)
        requires by_key { IsByKey head }
        requires fresh { (i : ℕ) → place_at self.now.places i ≢ Some (head, key) }
        requires from { (k : ℕ) × (place_at self.now.places from ≡ Some (head, k)) × (k < key) }
        ensures previous { IsNearest down (place_at self.now.places) head (down key + 1) (Some result.0) }
        ensures next { IsNearest up (place_at self.now.places) head (up key + 1) result.1 }
    {
        self.laws();
        let mut previous = from;
        let mut next = self.next_of(from);
        while let Some(node) = next {
            if key < self.key_of(node) {
                return (previous, next);
            }
            previous = node;
            next = self.next_of(node);
        }
        (previous, next)
    }

    /// Returns the first node of the list with a key above `key`, or `None` if there is none. The search begins after `from`,
    /// whose key is not above `key`.
    fn first_above(&self, head: u32, key: u32, from: u32) -> Option<u32>
        requires by_key { IsByKey head }
        requires from { (k : ℕ) × (place_at self.now.places from ≡ Some (head, k)) × (k ≤ key) }
        ensures { IsNearest up (place_at self.now.places) head (up key + 1) result }
    {
        let mut next = self.next_of(from);
        while let Some(node) = next {
            if key < self.key_of(node) {
                return next;
            }
            next = self.next_of(node);
        }
        next
    }

    /// Returns the last node of the list with a key below `key`, or `None` if there is none. The search begins before `from`,
    /// whose key is not below `key`.
    fn last_below(&self, head: u32, key: u32, from: u32) -> Option<u32>
        requires by_key { IsByKey head }
        requires from { (k : ℕ) × (place_at self.now.places from ≡ Some (head, k)) × (key ≤ k) }
        ensures { IsNearest down (place_at self.now.places) head (down key + 1) result }
    {
        let mut previous = self.previous_of(from);
        while let Some(node) = previous {
            if self.key_of(node) < key {
                return previous;
            }
            previous = self.previous_of(node);
        }
        previous
    }

    /// Returns the node after `previous`, or the first of the list if `previous` is `None`.
    fn next_or_first(&self, head: u32, previous: Option<u32>) -> Option<u32>
        requires head { head < self.now.heads }
        requires by_key { IsByKey head }
        requires placed { ForSome previous (λ i. IsSome (place_at self.now.places i)) }
        ensures { MatchOption previous (IsNearest up (place_at self.now.places) head 0 result) (λ i. IsFollowing up (place_at self.now.places) i result) }
    {
        match previous {
            Some(node) => self.next_of(node),
            None => self.first_of(head),
        }
    }

    /// Returns the node before `next`, or the last of the list if `next` is `None`.
    fn previous_or_last(&self, head: u32, next: Option<u32>) -> Option<u32>
        requires head { head < self.now.heads }
        requires by_key { IsByKey head }
        requires placed { ForSome next (λ i. IsSome (place_at self.now.places i)) }
        ensures { MatchOption next (IsNearest down (place_at self.now.places) head 0 result) (λ i. IsFollowing down (place_at self.now.places) i result) }
    {
        match next {
            Some(node) => self.previous_of(node),
            None => self.last_of(head),
        }
    }

    fn key_of(&self, node: u32) -> u32
        requires { IsSome (place_at self.now.places node) }
        ensures { IfSome (place_at self.now.places node) (λ p. result ≡ p.1) }
    {
        self.nodes[node as usize].key
    }

    /// Searches all nodes of the table for the one with the least key of the list. Returns `None` if the list is empty.
    #[cold]
    #[inline(never)]
    fn least(&self, head: u32) -> Option<u32>
        requires { head < self.now.heads }
        ensures { IsNearest up (place_at self.now.places) head 0 result }
    {
        self.laws();
        let mut least = None;
        let mut bound = 1 << 32;
        for node in 0..self.nodes() {
            if self.is_in(node, head) && u64::from(self.key_of(node)) < bound {
                bound = self.key_of(node).into();
                least = Some(node);
            }
        }
        least
    }

    fn first_of(&self, head: u32) -> Option<u32>
        requires head { head < self.now.heads }
        requires by_key { IsByKey head }
        ensures { IsNearest up (place_at self.now.places) head 0 result }
    {
        self.heads[head as usize].first.get()
    }

    fn last_of(&self, head: u32) -> Option<u32>
        requires head { head < self.now.heads }
        requires by_key { IsByKey head }
        ensures { IsNearest down (place_at self.now.places) head 0 result }
    {
        self.heads[head as usize].last.get()
    }

    fn next_of(&self, node: u32) -> Option<u32>
        requires { IsSome (place_at self.now.places node) }
        ensures { IsFollowing up (place_at self.now.places) node result }
    {
        self.nodes[node as usize].next.get()
    }

    fn previous_of(&self, node: u32) -> Option<u32>
        requires { IsSome (place_at self.now.places node) }
        ensures { IsFollowing down (place_at self.now.places) node result }
    {
        self.nodes[node as usize].previous.get()
    }
}

/// Returns the two nodes of `gap`. If `gap` is `None`, returns the last node of the list in the order of links, and `None` for
/// the node after it.
#[inline(always)]
fn link_place(
    heads: &[Head],
    head: u32,
    gap: Option<(Option<u32>, Option<u32>)>,
) -> (Option<u32>, Option<u32>)
    requires { head < length heads.now }
    ensures { MatchOption gap (result ≡ ((head_at heads.now head).last, None)) (λ g. result ≡ g) }
{
    match gap {
        Some(gap) => gap,
        None => (heads[head as usize].last.get(), None),
    }
}

/// Puts `node` into the list under `key`, between the nodes `previous` and `next`. If `previous` is `None`, `node` becomes the
/// first of the list. If `next` is `None`, it becomes the last.
#[inline(always)]
fn link_node(
    heads: &mut [Head],
    nodes: &mut [Node],
    head: u32,
    node: u32,
    key: u32,
    previous: Option<u32>,
    next: Option<u32>,
)
    requires head { head < length heads.old }
    requires list { head < 2 ^ 32 - 1 }
    requires node { node < length nodes.old }
    requires nodes { length nodes.old < 2 ^ 32 }
    requires previous { ForSome previous (λ i. i < length nodes.old) }
    requires next { ForSome next (λ i. i < length nodes.old) }
    requires room { (head_at heads.old head).len + 1 < 2 ^ 32 }
    ensures heads { heads.new ≡ heads_linked heads.old head node previous next }
    ensures nodes { nodes.new ≡ nodes_linked nodes.old head node key previous next }
{
    nodes[node as usize] = Node {
        list: Link::of(Some(head)),
        key,
        previous: Link::of(previous),
        next: Link::of(next),
    };
    link_after(heads, nodes, head, previous, Some(node));
    link_before(heads, nodes, head, next, Some(node));
    heads[head as usize].len += 1;
}

/// Takes `node` out of the list and links its neighbours `previous` and `next` to each other. `None` means an end of the list.
#[inline(always)]
fn unlink_node(
    heads: &mut [Head],
    nodes: &mut [Node],
    head: u32,
    node: u32,
    previous: Option<u32>,
    next: Option<u32>,
)
    requires head { head < length heads.old }
    requires node { node < length nodes.old }
    requires nodes { length nodes.old < 2 ^ 32 }
    requires previous { ForSome previous (λ i. i < length nodes.old) }
    requires next { ForSome next (λ i. i < length nodes.old) }
    requires some { 1 ≤ (head_at heads.old head).len }
    ensures heads { heads.new ≡ heads_unlinked heads.old head previous next }
    ensures nodes { nodes.new ≡ nodes_unlinked nodes.old node previous next }
{
    nodes[node as usize] = Node::free();
    link_after(heads, nodes, head, previous, next);
    link_before(heads, nodes, head, next, previous);
    heads[head as usize].len -= 1;
}

/// Links `to` after `previous`, or as the first of the list if `previous` is `None`.
fn link_after(
    heads: &mut [Head],
    nodes: &mut [Node],
    head: u32,
    previous: Option<u32>,
    to: Option<u32>,
)
    requires head { head < length heads.old }
    requires previous { ForSome previous (λ i. i < length nodes.old) }
    requires to { IfSome to (λ i. i < 2 ^ 32 - 1) }
    ensures heads { heads.new ≡ heads_linked_after previous head to heads.old }
    ensures nodes { nodes.new ≡ nodes_linked_after previous to nodes.old }
{
    match previous {
        Some(node) => nodes[node as usize].next = Link::of(to),
        None => heads[head as usize].first = Link::of(to),
    }
}

/// Links `to` before `next`, or as the last of the list if `next` is `None`.
fn link_before(
    heads: &mut [Head],
    nodes: &mut [Node],
    head: u32,
    next: Option<u32>,
    to: Option<u32>,
)
    requires head { head < length heads.old }
    requires next { ForSome next (λ i. i < length nodes.old) }
    requires to { IfSome to (λ i. i < 2 ^ 32 - 1) }
    ensures heads { heads.new ≡ heads_linked_before next head to heads.old }
    ensures nodes { nodes.new ≡ nodes_linked_before next to nodes.old }
{
    match next {
        Some(node) => nodes[node as usize].previous = Link::of(to),
        None => heads[head as usize].last = Link::of(to),
    }
}
