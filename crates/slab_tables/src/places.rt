//! The index of a cache among the caches of all tenants, and the lists of slabs with their hints.

ghost use Rattle.std.specs.Prelude.{◌≡◌, ◌≢◌, ℕ, ◌+◌, ◌*◌, ◌^◌, ◌<◌, ◌≤◌, true, Some, None, length, replicate, IsSome, IfSome, IfOk, MatchOption};
ghost use Rattle.model_core.specs.declared.limits.TheConstants.{WIDE_ORDER, WIDE_SUPERBLOCKS, WIDE_TENANTS, MAX_CACHES};
ghost use Rattle.klist_core.specs.Places.{IsByKey, IsPlacedByKey, IsEmpty, place_at, is_in, inserted, removed, replaced};
ghost use Rattle.slab_tables.specs.Content.{index_of_cache, head_of, kind_of};
ghost use Rattle.slab_tables.specs.Changes.{IsEmptied};

use crate::groups::Groups;
use crate::kind::{Counts, Kind};
use crate::list::ListId;
use klist_core::{Lists, is_loose};
use model_core::limits::MAX_CACHES;
use std::alloc::{AllocError, Global};
use std::marker::Model;

/// Returns the index of cache `c` of tenant `t` among the caches of all tenants.
pub(crate) fn index_of(t: u8, c: u32) -> usize
    requires { c < MAX_CACHES }
    ensures { result ≡ index_of_cache t c }
{
    usize::from(MAX_CACHES) * usize::from(t) + c as usize
}

/// Returns the machine frame of frame `i` of the superblock, which has `2^order` frames.
pub(crate) fn machine_frame_at(order: u8, superblock: u16, i: u32) -> u32
    requires order { order ≤ WIDE_ORDER }
    requires frame { i < 2 ^ order }
    ensures { result ≡ superblock * 2 ^ order + i }
{
    (u32::from(superblock) << order) + i
}

/// In a list with fewer slabs than this, a slab's position is found by a walk, without a search for a nearby slab.
const SHORT: u32 = 8;

/// A list that grows to this number of slabs is kept in groups: for each group of frames, one bit says whether a slab of the list
/// begins in the group. For fewer slabs a walk costs no more than a lookup in the groups.
const LONG: u32 = 128;

/// A list that shrinks below this number of slabs is no longer kept in groups. The number is well below `LONG`, because a list
/// has to be walked each time it is put into groups.
const NOT_LONG: u32 = 64;

/// The lists of the slabs of all caches, with hints about where to look for the slabs.
#[derive(Debug, Drop)]
pub(crate) struct SlabLists {
    lists: Lists,
    groups: Groups,
}

impl Model for SlabLists {
    ghost use Rattle.klist_core.specs.Places.{Placed};

    ghost Value = { Placed };

    ghost view = { λ s. s.lists };
}

impl SlabLists {
    /// Makes three empty lists for each tenant and each cache number. No slab begins at any machine frame.
    pub(crate) fn new(
        alloc: Global,
        order: u8,
        superblocks: u16,
        tenants: u8,
    ) -> Result<SlabLists, AllocError>
        requires order { order ≤ WIDE_ORDER }
        requires superblocks { superblocks ≤ WIDE_SUPERBLOCKS }
        requires tenants { tenants ≤ WIDE_TENANTS }
        ensures { IfOk result (λ s. s ≡ record { heads = MAX_CACHES * tenants * 3; places = replicate (superblocks * 2 ^ order) None }) }
    {
        let machine_frames = u32::from(superblocks) << order;
        let caches = u32::from(MAX_CACHES) * u32::from(tenants);
        Ok(SlabLists {
            lists: Lists::new(alloc, machine_frames, caches * 3)?,
            groups: Groups::new(alloc, order, superblocks, tenants)?,
        })
    }

    /// Returns the lists.
    pub(crate) fn lists(&self) -> &Lists
        ensures { result.now ≡ self.now }
    {
        &self.lists
    }

    /// Returns the machine frame of some slab of the list, or `None` if the list is empty.
    pub(crate) fn any(&self, head: u32) -> Option<u32>
        requires { head < self.now.heads }
        ensures { MatchOption result (IsEmpty self.now.places head) (λ n. is_in head (place_at self.now.places n) ≡ true) }
    {
        self.lists.any(head)
    }

    /// Inserts a slab into a list that is not loose, as [`Lists::insert`] does, and keeps the hints up to date.
    pub(crate) fn insert(&mut self, head: u32, machine_frame: u32, key: u32)
        requires head { head < self.old.heads }
        requires by_key { IsByKey head }
        requires machine_frame { machine_frame < length self.old.places }
        requires free { place_at self.old.places machine_frame ≡ None }
        requires fresh { (i : ℕ) → place_at self.old.places i ≢ Some (head, key) }
        ensures { self.new ≡ inserted self.old head machine_frame key }
    {
        self.lists.insert(head, machine_frame, key);
        self.groups.see(head, key, machine_frame);
        self.note(head, key);
    }

    /// Removes the slab from its list, as [`Lists::remove`] does, and keeps the hints up to date.
    #[inline(always)]
    pub(crate) fn remove(&mut self, machine_frame: u32)
        requires machine_frame { machine_frame < length self.old.places }
        requires placed { IsSome (place_at self.old.places machine_frame) }
        ensures { self.new ≡ removed self.old machine_frame }
    {
        self.lists.laws();
        let Some((list, key)) = self.lists.place_of(machine_frame) else {
            unreachable!()
        };
        if self.lists.len(list) >= NOT_LONG && self.groups.is_kept(list) {
            self.forget(list, machine_frame, key);
        }
        self.lists.remove(machine_frame);
    }

    /// Notes in the hints that the list has a slab under the key, if the list is kept in groups or has become long.
    #[inline(always)]
    fn note(&mut self, head: u32, key: u32)
        requires head { head < self.old.heads }
        requires by_key { IsByKey head }
        ensures { self.new ≡ self.old }
    {
        let len = self.lists.len(head);
        if len >= NOT_LONG && (len >= LONG || self.groups.is_kept(head)) {
            self.note_in_groups(head, key);
        }
    }

    /// Does the work of `note` for a list that is kept in groups or has become long. The list is kept in groups from then on.
    #[inline(never)]
    fn note_in_groups(&mut self, head: u32, key: u32)
        requires head { head < self.old.heads }
        requires by_key { IsByKey head }
        ensures { self.new ≡ self.old }
    {
        if self.groups.is_kept(head) {
            self.groups.put(head, key);
        } else if self.lists.len(head) >= LONG {
            keep(&self.lists, &mut self.groups, head);
        }
    }

    /// Updates the hints for a slab that is about to leave the list. The list is kept in groups.
    #[inline(never)]
    fn forget(&mut self, list: u32, machine_frame: u32, key: u32)
        requires list { list < self.old.heads }
        requires machine_frame { machine_frame < length self.old.places }
        requires placed { place_at self.old.places machine_frame ≡ Some (list, key) }
        ensures { self.new ≡ self.old }
    {
        if self.lists.len(list) <= NOT_LONG || is_loose(list) {
            self.groups.leave(list);
        } else if self.is_alone(machine_frame, key) {
            self.groups.take(list, key);
        }
    }

    /// Returns true if neither of the slab's neighbours in its list is in the slab's group. `key` is the slab's first frame.
    fn is_alone(&self, machine_frame: u32, key: u32) -> bool
        requires machine_frame { machine_frame < length self.now.places }
        requires placed { IsPlacedByKey self.now.places machine_frame }
    {
        if let Some((next, _)) = self.lists.after(machine_frame)
            && self.groups.is_one(next, key)
        {
            return false;
        }
        match self.lists.before(machine_frame) {
            Some((previous, _)) => !self.groups.is_one(previous, key),
            None => true,
        }
    }

    /// Moves a slab of cache `c` of tenant `t` to the list of its new kind, under the same key. `counts` has the slab's numbers
    /// of objects and of live objects.
    ///
    /// Most slabs stay partial. They are not moved, and the counts alone show this, so no list number is computed for them.
    ///
    /// `slab` is the order of the slab. Only the cost depends on it.
    #[inline(always)]
    pub(crate) fn relist(
        &mut self,
        t: u8,
        c: u32,
        counts: Counts,
        machine_frame: u32,
        key: u32,
        slab: u8,
    )
        requires cache { c < MAX_CACHES }
        requires to { head_of t c (kind_of counts.total counts.after) < self.old.heads }
        requires slab { slab ≤ 3 }
        requires placed { place_at self.old.places machine_frame ≡ Some (head_of t c (kind_of counts.total counts.before), key) }
        requires alone { (i : ℕ) → place_at self.old.places i ≡ Some (head_of t c (kind_of counts.total counts.after), key)
            → i ≡ machine_frame }
        ensures { self.new ≡ inserted self.old (head_of t c (kind_of counts.total counts.after)) machine_frame key }
    {
        if counts.stay_partial() {
            return;
        }
        let to = ListId::of(t, c, Kind::of(counts.total, counts.after));
        self.move_to(to.number, machine_frame, key, slab);
    }

    /// Moves the slab from its list to the list `head` under the same key.
    ///
    /// If list `head` is loose, the slab is appended. If the list is short, it is walked, unless the slab belongs at one of its
    /// ends. In a longer list the function first searches for a nearby slab, from which a walk is short.
    #[inline(never)]
    fn move_to(&mut self, head: u32, machine_frame: u32, key: u32, slab: u8)
        requires head { head < self.old.heads }
        requires slab { slab ≤ 3 }
        requires placed { IsSome (place_at self.old.places machine_frame) }
        requires alone { (i : ℕ) → place_at self.old.places i ≡ Some (head, key) → i ≡ machine_frame }
        ensures { self.new ≡ inserted self.old head machine_frame key }
    {
        self.remove(machine_frame);
        if is_loose(head) {
            self.lists.append(head, machine_frame, key);
        } else if self.lists.len(head) < SHORT {
            self.lists.insert(head, machine_frame, key);
        } else {
            self.insert_among(head, machine_frame, key, 1 << slab);
            self.note(head, key);
        }
    }

    /// Does the same as [`Lists::insert`] for a list that is not short. If the function finds a nearby slab of the list, the walk
    /// to the new slab's position begins there. `step` is the number of frames in a slab.
    #[inline(always)]
    fn insert_among(&mut self, head: u32, machine_frame: u32, key: u32, step: u32)
        requires head { head < self.old.heads }
        requires by_key { IsByKey head }
        requires machine_frame { machine_frame < length self.old.places }
        requires free { place_at self.old.places machine_frame ≡ None }
        requires fresh { (i : ℕ) → place_at self.old.places i ≢ Some (head, key) }
        requires step { 0 < step }
        ensures { self.new ≡ inserted self.old head machine_frame key }
    {
        match self.near(head, machine_frame, key, step) {
            Some(near) => self.lists.insert_by(head, machine_frame, key, near),
            None => self
                .lists
                .insert_near(head, machine_frame, key, machine_frame),
        }
    }

    /// Returns the machine frame of a slab of the list, most likely of one whose key is a little below `key`. Returns `None` if
    /// the search finds no slab.
    ///
    /// The search first tries every `step`-th machine frame below `machine_frame` in the same group. It tries at most a quarter
    /// as many machine frames as the list has slabs, since a walk over a short list costs less. Then, if the list is kept in
    /// groups, it searches the last group that comes before the group of `key` and has a slab of the list.
    fn near(&self, head: u32, machine_frame: u32, key: u32, step: u32) -> Option<u32>
        requires head { head < self.now.heads }
        requires machine_frame { machine_frame < length self.now.places }
        requires step { 0 < step }
        ensures { IfSome result (λ n. is_in head (place_at self.now.places n) ≡ true) }
    {
        let len = self.lists.len(head);
        let reach = self.groups.before_in_group(machine_frame);
        if let Some(near) = near_below(&self.lists, head, machine_frame, step, reach, len / 4) {
            return Some(near);
        }
        if !self.groups.is_kept(head) {
            return None;
        }
        self.near_in_groups(head, key, step)
    }

    /// Searches the last group that comes before the group of `key` and has a slab of the list. The search goes down from the end
    /// of that group. Returns the machine frame of the first slab of the list that the search finds, or `None` if it finds none.
    #[inline(never)]
    fn near_in_groups(&self, head: u32, key: u32, step: u32) -> Option<u32>
        requires head { head < self.now.heads }
        requires step { 0 < step }
        ensures { IfSome result (λ n. is_in head (place_at self.now.places n) ≡ true) }
    {
        let size = self.groups.size();
        let first = self.groups.before(head, key)?;
        let end = self.groups.seen_at(head, first)?.checked_add(size)?;
        if end > self.lists.nodes() {
            return None;
        }
        near_below(&self.lists, head, end, step, size, size)
    }

    /// Replaces machine frame `from` in its list by machine frame `to`, which is in no list. Does nothing if `from` is in no
    /// list.
    pub(crate) fn replace(&mut self, from: u32, to: u32)
        requires from { from < length self.old.places }
        requires to { to < length self.old.places }
        requires free { place_at self.old.places to ≡ None }
        requires apart { from ≢ to }
        ensures { self.new ≡ replaced self.old from to }
    {
        if let Some((list, key)) = self.lists.place_of(from) {
            self.lists.replace(from, to);
            self.groups.see(list, key, to);
        }
    }

    /// Removes all slabs from the list.
    pub(crate) fn clear(&mut self, head: u32)
        requires { head < self.old.heads }
        ensures { IsEmptied self.old self.new head }
    {
        while let Some(machine_frame) = self.any(head) {
            self.remove(machine_frame);
        }
    }
}

/// Keeps the list in groups from now on. The list has at most `LONG` slabs.
#[cold]
#[inline(never)]
fn keep(lists: &Lists, groups: &mut Groups, head: u32)
    requires head { head < lists.now.heads }
    requires by_key { IsByKey head }
{
    groups.keep(head);
    let mut next = lists.first_by_key(head);
    for _ in 0..LONG {
        let Some((key, machine_frame)) = next else {
            return;
        };
        groups.put(head, key);
        next = lists.after(machine_frame);
    }
}

/// Returns the first of the machine frames `above - step`, `above - 2 * step` and so on that is in the list. Tries at most `most`
/// of these machine frames, and none that is more than `reach` below `above`. Returns `None` if none of them is in the list.
fn near_below(lists: &Lists, head: u32, above: u32, step: u32, reach: u32, most: u32) -> Option<u32>
    requires head { head < lists.now.heads }
    requires above { above ≤ length lists.now.places }
    requires step { 0 < step }
    requires reach { reach ≤ above }
    ensures { IfSome result (λ n. is_in head (place_at lists.now.places n) ≡ true) }
{
    let mut below = above;
    for _ in 0..(reach / step).min(most) {
        below -= step;
        if lists.is_in(below, head) {
            return Some(below);
        }
    }
    None
}
