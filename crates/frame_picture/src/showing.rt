//! Stores the state of a kernel in a column.

ghost use Rattle.std.specs.Prelude.{◌≡◌, ℕ, ◌+◌, ◌*◌, ◌^◌, ◌<◌, ◌≤◌, Some, length, slice_get, slice_index};
ghost use Rattle.model_core.specs.declared.owner.Owner.{Owner};
ghost use Rattle.model_core.specs.declared.report.OrderRow.{OrderRow};
ghost use Rattle.world_core.specs.World.{World};
ghost use Rattle.model_core.specs.Machine.{Machine};
ghost use Rattle.space_core.specs.Content.{owner_at};
ghost use Rattle.kernel_core.specs.Shows.{Shows, ShowsMachine};
ghost use Rattle.kernel_core.specs.Frames.{IsFrame};
ghost use Rattle.frame_picture.specs.Columns.{AreCells, AreFigures};
ghost use Rattle.frame_picture.specs.declared.history.Sheet.{Sheet};
ghost use Rattle.frame_picture.specs.declared.history.Figures.{Figures};

use crate::history::{Figures, ORDERS, Sheet};
use kernel_core::{FrameKind, Kernel};
use model_core::owner::Owner;
use model_core::report::OrderRow;

/// Stores the owner of each superblock and the kinds of its frames.
pub fn show_sheets(sheets: &mut [Sheet], kernel: &Kernel)
    ensures owners { (w : World) (s : ℕ) (sheet : Sheet) → Shows kernel.now w → slice_get sheets.new s ≡ Some sheet
        → sheet.owner ≡ owner_at w.owners s }
    ensures cells { (w : World) (s : ℕ) (sheet : Sheet) → Shows kernel.now w → slice_get sheets.new s ≡ Some sheet
        → AreCells kernel.now.order w sheet.owner sheet.cells.items }
{
    let owners = kernel.space().owners();
    for (superblock, sheet) in sheets.iter_mut().enumerate() {
        show_sheet(sheet, kernel, owners.get(superblock).copied().flatten());
    }
}

/// Stores the owner of a superblock, and the kinds of the superblock's frames if it has an owner.
fn show_sheet(sheet: &mut Sheet, kernel: &Kernel, owner: Option<Owner>)
    ensures owner { sheet.new.owner ≡ owner }
    ensures cells { (w : World) → Shows kernel.now w → AreCells kernel.now.order w owner sheet.new.cells.items }
{
    sheet.owner = owner;
    if let Some(Owner { tenant, slot }) = owner {
        show_cells(&mut sheet.cells, kernel, tenant, slot);
    }
}

/// Stores the kinds of the frames of a tenant's slot.
fn show_cells(cells: &mut [FrameKind], kernel: &Kernel, t: u8, slot: u16)
    ensures { (w : World) (m : Machine) (k : ℕ) (cell : FrameKind) → Shows kernel.now w → slice_get w.machines t ≡ Some m
        → slot * 2 ^ kernel.now.order + k < 2 ^ 32 → slice_get cells.new k ≡ Some cell
        → IsFrame kernel.now.order m (slot * 2 ^ kernel.now.order + k) cell }
{
    kernel.parts_agree();
    let Some(known) = kernel.tenant(u32::from(t)) else {
        return;
    };
    kernel.show_frames(known, slot, cells);
    show_beyond(cells, kernel, known, slot, 1usize << kernel.order());
}

/// Stores the kinds of a slot's frames after the first `from` ones. Stores nothing if there are at most `from` cells.
fn show_beyond(cells: &mut [FrameKind], kernel: &Kernel, t: u8, slot: u16, from: usize)
    requires { t < kernel.now.tenants }
    ensures kept { (k : ℕ) → k < from → slice_get cells.new k ≡ slice_get cells.old k }
    ensures told { (m : Machine) (k : ℕ) (cell : FrameKind) → ShowsMachine kernel.now t m → from ≤ k
        → slot * 2 ^ kernel.now.order + k < 2 ^ 32 → slice_get cells.new k ≡ Some cell
        → IsFrame kernel.now.order m (slot * 2 ^ kernel.now.order + k) cell }
{
    kernel.parts_agree();
    let first = u64::from(slot) << kernel.order();
    for k in from..cells.len() {
        let frame = first.saturating_add(k as u64).min(u64::from(u32::MAX));
        cells[k] = kernel.frame_at(t, frame as u32);
    }
}

/// Stores the figures of each tenant.
pub fn show_figures(figures: &mut [Figures], kernel: &Kernel)
    ensures { (w : World) (m : Machine) (t : ℕ) (own : Figures) → Shows kernel.now w → slice_get w.machines t ≡ Some m
        → slice_get figures.new t ≡ Some own → AreFigures kernel.now.order m own }
{
    let mut t = 0u32;
    for own in figures.iter_mut() {
        *own = figures_of(kernel, t);
        t = t.saturating_add(1);
    }
}

/// Returns the figures of tenant `t`, as in its report.
fn figures_of(kernel: &Kernel, t: u32) -> Figures
    ensures { (w : World) (m : Machine) → Shows kernel.now w → slice_get w.machines t ≡ Some m → AreFigures kernel.now.order m result }
{
    let Some(t) = kernel.tenant(t) else {
        return Figures::NONE;
    };
    let figures = kernel.block_figures(t);
    Figures {
        held: figures.frames,
        taken: figures.live,
        free: free_by_order(figures.orders.as_slice()),
    }
}

/// Returns the number of free blocks of each order.
fn free_by_order(rows: &[OrderRow]) -> [u32; ORDERS]
    requires { length rows.now ≤ ORDERS }
    ensures { (k : ℕ) (row : OrderRow) → slice_get rows.now k ≡ Some row → slice_index result k ≡ row.free }
{
    let mut free = [0; ORDERS];
    for k in 0..rows.len() {
        free[k] = rows[k].free;
    }
    free
}

/// Stores the number of refused requests of each tenant.
pub fn show_refused(shown: &mut [u32], refused: &[u32])
    ensures { (t count : ℕ) → slice_get shown.new t ≡ Some count → count ≡ slice_index refused.now t }
{
    for (t, count) in shown.iter_mut().enumerate() {
        *count = refused.get(t).copied().unwrap_or(0);
    }
}
