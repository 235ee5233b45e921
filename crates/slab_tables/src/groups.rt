//! Hints about where to look for the slabs of a list. Only the cost of changing a list depends on them.

ghost use Rattle.std.specs.Prelude.{◌≡◌, ◌^◌, ◌<◌, ◌≤◌};
ghost use Rattle.model_core.specs.declared.limits.TheConstants.{WIDE_ORDER};

use model_core::limits::MAX_CACHES;
use std::alloc::{AllocError, Global};

/// The order of a group of frames. If superblocks have a lower order, a group has that order, so a group always lies in one slot.
const GROUP_ORDER: u8 = 5;

/// Hints about where slabs begin. A list that is kept in groups has one bit for each group of its tenant's frames. The bit is 1
/// if a slab of the list begins in the group. For each slot of a tenant, the hints also have a superblock: the one in which a
/// slab of the slot was last made, or to which the slot's slabs last moved.
#[derive(Debug, Drop)]
pub(crate) struct Groups {
    /// A superblock has `2^order` frames.
    order: u8,
    /// A group has `2^group` frames.
    group: u8,
    /// The mask that reduces a frame's number to the frame's index in its group.
    inside: u32,
    /// Each list has `2^span` words in `words`.
    span: u8,
    words: Vec<u64>,
    /// For each list, true if it is kept in groups.
    kept: Vec<bool>,
    /// Each tenant has `2^row` entries in `superblocks`.
    row: u8,
    superblocks: Vec<u32>,
    ghost order_small: { order ≤ WIDE_ORDER },
    ghost group_small: { group ≤ 5 },
    ghost span_small: { span ≤ 32 },
    ghost row_small: { row ≤ 16 },
}

impl Groups {
    /// Makes the hints for a machine with `superblocks` superblocks of `2^order` frames each, and with `tenants` tenants. No list
    /// is kept in groups.
    pub(crate) fn new(
        alloc: Global,
        order: u8,
        superblocks: u16,
        tenants: u8,
    ) -> Result<Groups, AllocError>
        requires { order ≤ WIDE_ORDER }
    {
        let group = order.min(GROUP_ORDER);
        let groups = u32::from(superblocks) << (order - group);
        let span = (32 - (groups.saturating_sub(1) / 64).leading_zeros()) as u8;
        let lists = 3 * usize::from(MAX_CACHES) * usize::from(tenants);
        let row = (16 - superblocks.saturating_sub(1).leading_zeros()) as u8;
        Ok(Groups {
            order,
            group,
            inside: (1 << group) - 1,
            span,
            words: vec![in alloc; 0; lists << span]?,
            kept: vec![in alloc; false; lists]?,
            row,
            superblocks: vec![in alloc; 0; usize::from(tenants) << row]?,
        })
    }

    /// Returns the number of frames in a group.
    pub(crate) fn size(&self) -> u32
        ensures { 0 < result }
    {
        1 << self.group
    }

    /// Returns the index of the frame in its group.
    #[inline(always)]
    pub(crate) fn before_in_group(&self, frame: u32) -> u32
        ensures { result ≤ frame }
    {
        frame & self.inside
    }

    /// Returns true if the two frames are in the same group.
    pub(crate) fn is_one(&self, frame: u32, other: u32) -> bool {
        frame >> self.group == other >> self.group
    }

    /// Returns true if the list is kept in groups.
    #[inline(always)]
    pub(crate) fn is_kept(&self, list: u32) -> bool {
        let i = list as usize;
        i < self.kept.len() && self.kept[i]
    }

    /// Begins to keep the list in groups, and sets all its bits to 0.
    pub(crate) fn keep(&mut self, list: u32) {
        let i = list as usize;
        if i < self.kept.len() {
            self.kept[i] = true;
        }
        let from = self.word_of(list, 0);
        let end = from.saturating_add(1 << self.span);
        if from <= end && end <= self.words.len() {
            self.words[from..end].fill(0);
        }
    }

    /// Stops keeping the list in groups.
    pub(crate) fn leave(&mut self, list: u32) {
        let i = list as usize;
        if i < self.kept.len() {
            self.kept[i] = false;
        }
    }

    /// Notes that a slab of the list begins at the frame.
    pub(crate) fn put(&mut self, list: u32, frame: u32) {
        let group = frame >> self.group;
        let i = self.word_of(list, group / 64);
        if i < self.words.len() {
            self.words[i] |= 1 << (group % 64);
        }
    }

    /// Notes that no slab of the list begins in the group of the frame.
    pub(crate) fn take(&mut self, list: u32, frame: u32) {
        let group = frame >> self.group;
        let i = self.word_of(list, group / 64);
        if i < self.words.len() {
            self.words[i] &= !(1 << (group % 64));
        }
    }

    /// Notes that the frame's slot has the superblock of this machine frame. The frame is in the numbering of the list's tenant.
    pub(crate) fn see(&mut self, list: u32, frame: u32, machine_frame: u32) {
        let i = self.slot_of(list, frame);
        if i < self.superblocks.len() {
            self.superblocks[i] = machine_frame >> self.order;
        }
    }

    /// Returns the first frame of the last group that comes before the frame's group and has a slab of the list. Returns `None`
    /// if no such group exists.
    pub(crate) fn before(&self, list: u32, frame: u32) -> Option<u32> {
        let group = frame >> self.group;
        let own = self.word(list, group / 64) & !(u64::MAX << (group % 64));
        if own != 0 {
            return Some(self.last_of(group / 64, own));
        }
        for i in (0..group / 64).rev() {
            let word = self.word(list, i);
            if word != 0 {
                return Some(self.last_of(i, word));
            }
        }
        None
    }

    /// Returns the frame's machine frame in the superblock that was last noted for the frame's slot. Returns `None` if the slot
    /// is out of range.
    pub(crate) fn seen_at(&self, list: u32, frame: u32) -> Option<u32> {
        let superblock = *self.superblocks.get(self.slot_of(list, frame))?;
        Some(superblock << self.order | frame % (1 << self.order))
    }

    /// Returns the first frame of the last group whose bit is 1 in `word`, which is word `i` of a list.
    fn last_of(&self, i: u32, word: u64) -> u32
        requires { i < 2 ^ 26 }
    {
        let last = (64 - word.leading_zeros()).saturating_sub(1);
        64 * i + last << self.group
    }

    /// Returns word `i` of the list, or 0 if the index is out of range.
    fn word(&self, list: u32, i: u32) -> u64 {
        let i = self.word_of(list, i);
        if i < self.words.len() {
            self.words[i]
        } else {
            0
        }
    }

    /// Returns the index of word `i` of the list.
    fn word_of(&self, list: u32, i: u32) -> usize {
        (list as usize) << self.span | i as usize
    }

    /// Returns the index of the frame's slot among the slots of all tenants. The frame is in the numbering of the list's tenant.
    fn slot_of(&self, list: u32, frame: u32) -> usize {
        let tenant = list as usize / (3 * usize::from(MAX_CACHES));
        tenant << self.row | (frame >> self.order) as usize
    }
}
