//! The report of a tenant, as one struct.

ghost use Rattle.std.specs.Prelude.{◌≡◌, ◌≤◌, length, map};
ghost use Rattle.words_core.specs.declared.event.Event.TheVariants.{Tenant};
ghost use Rattle.words_core.specs.declared.event.Command.TheVariants as Command;
ghost use Rattle.partmem_c.specs.Calls.{RunsCall, numbers_in_reply, call_status};
ghost use Rattle.partmem_c.specs.Figures.{order_figures, cache_figures, no_figures, over};
ghost use Rattle.partmem_c.specs.Figures.{reported_figures, figures_of_report, PutsFigures};

use crate::calls::block_bytes;
use crate::machine_storage::MachineStorage;
use crate::status::{DONE, NO_MACHINE};
use kernel_core::Kernel;
use model_core::report::{CacheRow, OrderRow};
use std::alloc::Global;
use words_core::{CACHES, ORDERS, Refusal, Report};

/// The numbers of free and of taken blocks of one order.
#[repr(C)]
#[derive(Clone, Copy, Debug)]
pub struct OrderFigures {
    pub free: u32,
    pub taken: u32,
}

/// A cache: its number, how many of its slabs are full, partial and empty, and how many of its objects are live.
#[repr(C)]
#[derive(Clone, Copy, Debug)]
pub struct CacheFigures {
    pub cache: u32,
    pub full: u32,
    pub partial: u32,
    pub empty: u32,
    pub live: u32,
}

/// The figures of a tenant's memory. The unused rows at the end of `order` and `cache` are zeros.
#[repr(C)]
#[derive(Clone, Copy, Debug)]
pub struct Figures {
    /// The number of frames in the tenant's slots.
    pub frames: u32,
    /// The number of these frames that are in page blocks and slabs.
    pub live: u32,
    /// The number of these frames that are free.
    pub free: u32,
    /// The size of a largest free block in bytes, or 0 if no frame is free.
    pub greatest: u32,
    /// The share of the free frames that are outside one largest free block, in thousandths, rounded up.
    pub split: u32,
    /// The number of used rows of `order`. The first row is that of order 0.
    pub orders: u32,
    /// The number of used rows of `cache`. The rows are in ascending order of the caches' numbers.
    pub caches: u32,
    pub order: [OrderFigures; ORDERS],
    pub cache: [CacheFigures; CACHES],
}

impl Figures {
    /// Returns figures in which every number is 0.
    pub fn zeroes() -> Figures
        ensures { result ≡ no_figures }
    {
        Figures {
            frames: 0,
            live: 0,
            free: 0,
            greatest: 0,
            split: 0,
            orders: 0,
            caches: 0,
            order: [OrderFigures { free: 0, taken: 0 }; ORDERS],
            cache: [CacheFigures {
                cache: 0,
                full: 0,
                partial: 0,
                empty: 0,
                live: 0,
            }; CACHES],
        }
    }
}

/// Stores the report of a tenant's memory in `figures`.
///
/// Fails with `NO_MACHINE` or `NO_TENANT`.
#[unsafe(no_mangle)]
pub extern "C" fn partmem_report(
    alloc: Global,
    machine: &mut MachineStorage,
    tenant: u32,
    figures: &mut Figures,
) -> u32
    ensures { RunsCall machine.old.cell.held (Tenant tenant Command.Report) machine.new.cell.held
        (λ reply. (result ≡ call_status (numbers_in_reply reply)) × (figures.new ≡ reported_figures reply)) }
{
    *figures = Figures::zeroes();
    let Some(kernel) = machine.kernel() else {
        return NO_MACHINE;
    };
    put_figures(kernel, tenant, figures)
}

/// Stores the figures of a tenant in `figures`, which must be all zeros, and returns the status. If there is no such tenant,
/// `figures` stays all zeros.
fn put_figures(kernel: &Kernel, tenant: u32, figures: &mut Figures) -> u32
    requires { figures.old ≡ no_figures }
    ensures { PutsFigures kernel.now tenant result figures.new }
{
    let Some(t) = kernel.tenant(tenant) else {
        return u32::from(Refusal::NoTenant.number());
    };
    put_report(&kernel.figures(t), figures);
    DONE
}

/// Stores the figures of a report in `figures`, which must be all zeros.
fn put_report(report: &Report, figures: &mut Figures)
    requires { figures.old ≡ no_figures }
    ensures { figures.new ≡ figures_of_report report.now }
{
    figures.frames = report.frames;
    figures.live = report.live;
    figures.free = report.free;
    figures.greatest = match report.top {
        None => 0,
        Some(order) => block_bytes(u32::from(order)),
    };
    figures.split = report.split;
    figures.orders = report.orders.len() as u32;
    figures.caches = report.caches.len() as u32;
    put_orders(report.orders.as_slice(), &mut figures.order);
    put_caches(report.caches.as_slice(), &mut figures.cache);
}

fn put_orders(rows: &[OrderRow], to: &mut [OrderFigures])
    requires { length rows.now ≤ length to.old }
    ensures { to.new ≡ over (map order_figures rows.now) to.old }
{
    for at in 0..rows.len() {
        to[at] = OrderFigures {
            free: rows[at].free,
            taken: rows[at].taken,
        };
    }
}

fn put_caches(rows: &[CacheRow], to: &mut [CacheFigures])
    requires { length rows.now ≤ length to.old }
    ensures { to.new ≡ over (map cache_figures rows.now) to.old }
{
    for at in 0..rows.len() {
        to[at] = CacheFigures {
            cache: u32::from(rows[at].cache),
            full: rows[at].full,
            partial: rows[at].partial,
            empty: rows[at].empty,
            live: rows[at].live,
        };
    }
}
