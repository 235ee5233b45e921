//! A tenant's report.

ghost use Rattle.std.specs.Prelude.{◌≡◌, ◌+◌, ◌<◌, ◌≤◌, length, IfSome};
ghost use Rattle.model_core.specs.Machine.{Machine};
ghost use Rattle.model_core.specs.Reports.{frames_held, frames_taken, free_count, greatest, order_rows, split_share as share};
ghost use Rattle.buddy_core.specs.Content.{holding_of};
ghost use Rattle.machine_changes.specs.Figures.{HasFigures, AreWithin, frames_below};
ghost use Rattle.world_core.specs.PrivateStep.{figures_of};
ghost use Rattle.kernel_core.specs.Shows.{ShowsMachine};
ghost use Rattle.kernel_core.specs.Steps.{Steps};
ghost use Rattle.words_core.specs.declared.event.Event.TheVariants.{Tenant};
ghost use Rattle.words_core.specs.declared.event.Command.TheVariants as Command;
ghost use Rattle.words_core.specs.declared.reply.Addressee.TheVariants as To;
ghost use Rattle.words_core.specs.declared.reply.Body.TheVariants as Say;

use crate::Kernel;
use arrayvec::ArrayVec;
use buddy_core::Buddy;
use model_core::limits::WIDE_ORDER;
use model_core::report::OrderRow;
use words_core::{ORDERS, Report};

/// The figures of a tenant's blocks.
#[derive(Drop)]
struct Blocks {
    /// The numbers of free and taken blocks of each order, indexed by order.
    orders: ArrayVec<OrderRow, ORDERS>,
    /// The number of frames in taken blocks.
    live: u32,
    /// The greatest order of a free block, or `None` if no block is free.
    top: Option<u8>,
}

/// The figures of a tenant's frames and blocks in its report.
#[derive(Debug, Drop)]
pub struct BlockFigures {
    /// The number of frames in the tenant's slots.
    pub frames: u32,
    /// The number of these frames in taken blocks: page blocks and slabs, including empty slabs.
    pub live: u32,
    /// The numbers of free and taken blocks of each order, indexed by order.
    pub orders: ArrayVec<OrderRow, ORDERS>,
}

impl Kernel {
    /// Returns the figures of frames and blocks in a report of tenant `t`, without the figures of its caches.
    pub fn block_figures(&self, t: u8) -> BlockFigures
        requires { t < self.now.tenants }
        ensures frames { (m : Machine) → ShowsMachine self.now t m → result.frames ≡ frames_held self.now.order m }
        ensures live { (m : Machine) → ShowsMachine self.now t m → result.live ≡ frames_taken m }
        ensures orders { (m : Machine) → ShowsMachine self.now t m → result.orders.items ≡ order_rows self.now.order m (self.now.order + 1) }
    {
        self.laws();
        let buddy = self.buddy();
        let blocks = orders_of(buddy, t);
        BlockFigures {
            frames: buddy.slots(t) << buddy.order(),
            live: blocks.live,
            orders: blocks.orders,
        }
    }

    /// Returns the figures of tenant `t`'s memory: its frames, its blocks of each order, and its caches. They are the contents of
    /// the reply of [`Kernel::report`]. A [`Report`] has half the size of that reply.
    pub fn figures(&self, t: u8) -> Report
        requires { t < self.now.tenants }
        ensures machine { (m : Machine) → ShowsMachine self.now t m → result ≡ figures_of self.now.order m }
        ensures steps { Steps self.now (Tenant t Command.Report) self.now (record { addressee = To.Tenant t; body = Say.Report result }) }
    {
        self.laws();
        let buddy = self.buddy();
        let blocks = orders_of(buddy, t);
        let frames = buddy.slots(t) << buddy.order();
        let free = frames - blocks.live;
        // Without a free frame there is no free block, and the share is 0.
        let top = if free == 0 { None } else { blocks.top };
        Report {
            frames,
            live: blocks.live,
            free,
            top,
            split: split_share(free, top),
            orders: blocks.orders,
            caches: self.slabs().rows(t),
        }
    }
}

/// Returns the figures of tenant `t`'s blocks: a row for each order, the number of taken frames, and the greatest order of a free
/// block.
fn orders_of(buddy: &Buddy, t: u8) -> Blocks
    requires tenant { t < length buddy.now.tenants }
    requires fit { AreWithin buddy.now t }
    requires small { buddy.now.top ≤ WIDE_ORDER }
    ensures live { result.live ≡ frames_below (holding_of t buddy.now) (buddy.now.top + 1) }
    ensures short { IfSome result.top (λ k. k ≤ WIDE_ORDER) }
    ensures orders { (m : Machine) → HasFigures buddy.now t m → result.orders.items ≡ order_rows buddy.now.top m (buddy.now.top + 1) }
    ensures top { (m : Machine) → HasFigures buddy.now t m → result.top ≡ greatest (free_count buddy.now.top m) (buddy.now.top + 1) }
{
    let mut orders = ArrayVec::new();
    let mut live = 0;
    let mut top = None;
    for k in 0..buddy.order() + 1 {
        let row = OrderRow {
            free: buddy.free_count(t, k),
            taken: buddy.taken_count(t, k),
        };
        orders.push(row);
        live += row.taken << k;
        if row.free != 0 {
            top = Some(k);
        }
    }
    Blocks { orders, live, top }
}

/// Returns the share of the `free` frames that are outside one largest free block, in thousandths. `top` is the order of that
/// block, or `None` if no block is free. Returns 0 if no block is free.
fn split_share(free: u32, top: Option<u8>) -> u32
    requires free { IfSome top (λ k. 0 < free) }
    requires order { IfSome top (λ k. k ≤ WIDE_ORDER) }
    ensures { result ≡ share free top }
{
    let Some(order) = top else {
        return 0;
    };
    1000u32.saturating_sub((1000 << order) / free)
}
