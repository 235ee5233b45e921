//! The kinds of a tenant's frames.

ghost use Rattle.std.specs.Prelude.{◌≡◌, ℕ, ◌<◌, ◌≤◌, ◌+◌, ◌*◌, ◌/◌, ◌%◌, ◌^◌, false, is_some, MatchOption, IfSome, Some, length, slice_get};
ghost use Rattle.model_core.specs.declared.limits.TheConstants.{WIDE_ORDER};
ghost use Rattle.model_core.specs.Blocks.{block, HasFrame};
ghost use Rattle.model_core.specs.Machine.{Machine};
ghost use Rattle.buddy_core.specs.Content.{holding_of, taken_of};
ghost use Rattle.klist_core.specs.Places.{place_at};
ghost use Rattle.machine_changes.specs.Shows.{machine_frame_of, has_slab};
ghost use Rattle.kernel_core.specs.Content.{superblock_at};
ghost use Rattle.kernel_core.specs.Shows.{ShowsMachine};
ghost use Rattle.kernel_core.specs.Frames.{IsFrame, IsInSlab, AreEndedBefore};
ghost use Rattle.kernel_core.specs.declared.frames.FrameKind.TheVariants.{Free};
ghost use Rattle.machine_changes.specs.Laws.{is_kind};

use crate::Kernel;
use slab_tables::{Kind, ListId};

/// The kind of a frame of a tenant.
#[derive(Clone, Copy, Debug, PartialEq, Eq)]
pub enum FrameKind {
    /// The tenant does not hold the slot of the frame.
    NotHeld,
    /// The frame is in a held slot and in no taken block.
    Free,
    /// The frame is in a page block.
    Page,
    /// The frame is in a full slab: all objects are live.
    Full,
    /// The frame is in a partial slab: some objects are live, but not all.
    Partial,
    /// The frame is in an empty slab: no object is live.
    Empty,
}

impl Kernel {
    /// Returns the kind of frame `frame` of tenant `t`.
    pub fn frame_at(&self, t: u8, frame: u32) -> FrameKind
        requires { t < self.now.tenants }
        ensures { (m : Machine) → ShowsMachine self.now t m → IsFrame self.now.order m frame result }
    {
        self.laws();
        if !self.is_held(t, frame) {
            return FrameKind::NotHeld;
        }
        let Some((first, _)) = self.buddy.block_of(t, frame) else {
            return FrameKind::Free;
        };
        match self.list_at(t, first) {
            Some(list) => kind_in(list),
            None => FrameKind::Page,
        }
    }

    /// Sets the cells to the kinds of the frames of a slot of tenant `t`: cell 0 to the kind of the first frame, and so on. The
    /// kinds are those that [`Kernel::frame_at`] returns, but this function looks up each block only once. If there are more
    /// cells than frames, the remaining cells may be set to anything.
    pub fn show_frames(&self, t: u8, slot: u16, cells: &mut [FrameKind])
        requires { t < self.now.tenants }
        ensures { (m : Machine) (k : ℕ) (cell : FrameKind) → ShowsMachine self.now t m → k < 2 ^ self.now.order
            → slice_get cells.new k ≡ Some cell → IsFrame self.now.order m (slot * 2 ^ self.now.order + k) cell }
    {
        match self.superblock_of(t, u32::from(slot)) {
            Some(superblock) => self.show_held(superblock, t, slot, cells),
            None => {
                for cell in cells.iter_mut() {
                    *cell = FrameKind::NotHeld;
                }
            }
        }
    }

    /// Does the same as [`Kernel::show_frames`] for a slot in which the tenant has this superblock.
    fn show_held(&self, superblock: u16, t: u8, slot: u16, cells: &mut [FrameKind])
        requires tenant { t < self.now.tenants }
        requires held { superblock_at self.now t slot ≡ Some superblock }
        ensures { (m : Machine) (k : ℕ) (cell : FrameKind) → ShowsMachine self.now t m → k < 2 ^ self.now.order
            → slice_get cells.new k ≡ Some cell → IsFrame self.now.order m (slot * 2 ^ self.now.order + k) cell }
    {
        self.laws();
        let base = self.slot_start(slot);
        let orders = self.buddy().orders_under(t, u32::from(slot));
        let most = cells.len().min(orders.len());
        set_more_cells(cells, 0, most, FrameKind::Free);
        let mut at = 0usize;
        'runs: while at < most {
            let (kind, frames) = self.run_at(superblock, t, base + at as u32, orders[at]);
            let end = at + frames;
            set_cells(cells, at, end.min(most), kind);
            at = end;
        }
    }

    /// Returns the first frame of a slot.
    fn slot_start(&self, slot: u16) -> u32
        ensures { result ≡ slot * 2 ^ self.now.order }
    {
        self.laws();
        u32::from(slot) << self.order()
    }

    /// Returns the kind of frame `first` of tenant `t`, and a number of frames from `first` on that all have this kind. The
    /// number is the size of the taken block that begins at `first`. If no block begins there, the frame is free and the number
    /// is 1. `order` is the order of the block, or `None`. The result is valid only if no taken block that begins before
    /// `first` contains frame `first`.
    fn run_at(&self, superblock: u16, t: u8, first: u32, order: Option<u8>) -> (FrameKind, usize)
        requires tenant { t < self.now.tenants }
        requires held { superblock_at self.now t (first / 2 ^ self.now.order) ≡ Some superblock }
        requires taken { order ≡ taken_of (holding_of t self.now.buddy) first }
        ensures some { 0 < result.1 }
        ensures few { result.1 ≤ 2 ^ WIDE_ORDER }
        ensures kinds { (m : Machine) (frame : ℕ) → ShowsMachine self.now t m → AreEndedBefore (taken_of (holding_of t self.now.buddy)) first
            → first ≤ frame → frame < first + result.1 → IsFrame self.now.order m frame result.0 }
        ensures next { AreEndedBefore (taken_of (holding_of t self.now.buddy)) first
            → AreEndedBefore (taken_of (holding_of t self.now.buddy)) (first + result.1) }
    {
        self.laws();
        match order {
            None => (FrameKind::Free, 1),
            Some(order) => (self.kind_of_block(superblock, t, first), 1usize << order),
        }
    }

    /// Returns the kind of the frames of the taken block that begins at frame `first` of tenant `t`, in a slot with this
    /// superblock.
    fn kind_of_block(&self, superblock: u16, t: u8, first: u32) -> FrameKind
        requires tenant { t < self.now.tenants }
        requires held { superblock_at self.now t (first / 2 ^ self.now.order) ≡ Some superblock }
        ensures { (m : Machine) (order frame : ℕ) → ShowsMachine self.now t m → taken_of (holding_of t self.now.buddy) first ≡ Some order
            → HasFrame (block first order) frame → IsFrame self.now.order m frame result }
    {
        self.laws();
        match self.list_in(superblock, t, first) {
            Some(list) => kind_in(list),
            None => FrameKind::Page,
        }
    }

    /// Returns true if tenant `t` holds the slot of a frame.
    fn is_held(&self, t: u8, frame: u32) -> bool
        ensures { result ≡ is_some (superblock_at self.now t (frame / 2 ^ self.now.order)) }
    {
        self.laws();
        self.superblock_of(t, frame >> self.order()).is_some()
    }

    /// Returns the list with the slab that begins at frame `first` of tenant `t`, or `None` if no slab begins there.
    fn list_at(&self, t: u8, first: u32) -> Option<ListId>
        requires { t < self.now.tenants }
        ensures { MatchOption result
            (has_slab self.now.slabs (machine_frame_of self.now.slabs.top self.now.space.slots t first) ≡ false)
            (λ list. (n key : ℕ) × (machine_frame_of self.now.slabs.top self.now.space.slots t first ≡ Some n)
            × (place_at self.now.slabs.lists.places n ≡ Some (list.number, key))) }
    {
        let machine_frame = self.machine_frame_of(t, first)?;
        let (number, _) = self.slabs.lists().place_of(machine_frame)?;
        Some(ListId { number })
    }

    /// Returns the same as `list_at`. The caller knows the superblock of the frame's slot.
    pub(crate) fn list_in(&self, superblock: u16, t: u8, first: u32) -> Option<ListId>
        requires tenant { t < self.now.tenants }
        requires held { superblock_at self.now t (first / 2 ^ self.now.order) ≡ Some superblock }
        ensures { MatchOption result
            (has_slab self.now.slabs (machine_frame_of self.now.slabs.top self.now.space.slots t first) ≡ false)
            (λ list. (n key : ℕ) × (machine_frame_of self.now.slabs.top self.now.space.slots t first ≡ Some n)
            × (place_at self.now.slabs.lists.places n ≡ Some (list.number, key))) }
    {
        let machine_frame = self.machine_frame_in(superblock, t, first);
        let (number, _) = self.slabs.lists().place_of(machine_frame)?;
        Some(ListId { number })
    }

    /// Returns the machine frame of a frame of tenant `t`, or `None` if the tenant does not hold the frame's slot.
    fn machine_frame_of(&self, t: u8, frame: u32) -> Option<u32>
        requires { t < self.now.tenants }
        ensures value { result ≡ machine_frame_of self.now.slabs.top self.now.space.slots t frame }
        ensures below { IfSome result (λ machine_frame. machine_frame < length self.now.slabs.lists.places) }
    {
        self.laws();
        let superblock = self.space.machine_of(t, frame >> self.order())?;
        Some(self.machine_frame_in(superblock, t, frame))
    }

    /// Returns the machine frame of a frame of tenant `t`. The caller knows the superblock of the frame's slot. Only the contract
    /// uses `t`.
    #[inline(always)]
    pub(crate) fn machine_frame_in(&self, superblock: u16, t: u8, frame: u32) -> u32
        requires { superblock_at self.now t (frame / 2 ^ self.now.order) ≡ Some superblock }
        ensures value { machine_frame_of self.now.slabs.top self.now.space.slots t frame ≡ Some result }
        ensures below { result < length self.now.slabs.lists.places }
    {
        let _ = t;
        self.laws();
        let order = self.order();
        (u32::from(superblock) << order) + frame % (1 << order)
    }
}

/// Returns the kind of the frames of the slabs in this list.
fn kind_in(list: ListId) -> FrameKind
    ensures { (order : ℕ) (m : Machine) (frame : ℕ) → IsInSlab m frame (is_kind (list.number % 3)) → IsFrame order m frame result }
{
    match list.kind() {
        Kind::Full => FrameKind::Full,
        Kind::Partial => FrameKind::Partial,
        Kind::Empty => FrameKind::Empty,
    }
}

/// Sets the cells `begin..end`, which must be `Free`, to `kind`. Most blocks have one frame. A single cell is set without the
/// loop, because the loop is compiled to a call of `memset`.
fn set_cells(cells: &mut [FrameKind], begin: usize, end: usize, kind: FrameKind)
    requires inside { end ≤ length cells.old }
    requires free { (k : ℕ) (cell : FrameKind) → begin ≤ k → k < end → slice_get cells.old k ≡ Some cell → cell ≡ Free }
    ensures set { (k : ℕ) (cell : FrameKind) → begin ≤ k → k < end → slice_get cells.new k ≡ Some cell → cell ≡ kind }
    ensures before { (k : ℕ) → k < begin → slice_get cells.new k ≡ slice_get cells.old k }
    ensures behind { (k : ℕ) → end ≤ k → slice_get cells.new k ≡ slice_get cells.old k }
{
    if matches!(kind, FrameKind::Free) {
        return;
    }
    if end.saturating_sub(begin) == 1 {
        set_cell(cells, begin, kind);
    } else {
        set_more_cells(cells, begin, end, kind);
    }
}

/// Sets the cell with index `at` to `kind`.
#[inline(always)]
fn set_cell(cells: &mut [FrameKind], at: usize, kind: FrameKind)
    requires { at < length cells.old }
    ensures set { (cell : FrameKind) → slice_get cells.new at ≡ Some cell → cell ≡ kind }
    ensures before { (k : ℕ) → k < at → slice_get cells.new k ≡ slice_get cells.old k }
    ensures behind { (k : ℕ) → at < k → slice_get cells.new k ≡ slice_get cells.old k }
{
    cells[at] = kind;
}

/// Sets the cells `begin..end` to `kind`.
fn set_more_cells(cells: &mut [FrameKind], begin: usize, end: usize, kind: FrameKind)
    requires { end ≤ length cells.old }
    ensures set { (k : ℕ) (cell : FrameKind) → begin ≤ k → k < end → slice_get cells.new k ≡ Some cell → cell ≡ kind }
    ensures before { (k : ℕ) → k < begin → slice_get cells.new k ≡ slice_get cells.old k }
    ensures behind { (k : ℕ) → end ≤ k → slice_get cells.new k ≡ slice_get cells.old k }
{
    for k in begin..end {
        cells[k] = kind;
    }
}
