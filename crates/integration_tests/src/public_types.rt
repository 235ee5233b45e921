//! The types of the public functions, written out: if a type changes, this module does not compile.
//!
//! Generic functions, and functions that return a borrow, are called with their types written out, since the prover does not
//! follow pointers to them. The methods of feeds and drains are in `pieces`, which implements both traits.

ghost use Rattle.std.specs.Prelude.{◌≡◌, false};

use arrayvec::ArrayVec;
use buddy_core::{Buddy, SlotBusy};
use kernel_core::{BootError, Config, Kernel};
use klist_core::Lists;
use layout_core::{Layout, LayoutRefusal, Pattern};
use replay_core::{Drain, Feed, ReaderFeed, ReplayError, Stopped, Tally, WriterDrain, replay};
use slab_core::{CacheRow, DestroyRefusal, GiveRefusal, Slabs, TakeRefusal};
use space_core::{MoveRefusal, NoSlot, PoolEmpty, Space};
use std::alloc::{AllocError, Global};
use std::io::{Read, Write};
use std::test::Fail;
use words_core::{
    Addressee, Body, Command, Event, LineFault, Refusal, Reply, read_line, rows, write_line,
};

fn lists() {
    let _: fn(Global, u32, u32) -> Result<Lists, AllocError> = Lists::new;
    let _: fn(&mut Lists, u32, u32, u32) = Lists::insert;
    let _: fn(&mut Lists, u32) = Lists::remove;
    let _: fn(&Lists, u32) -> Option<(u32, u32)> = Lists::first;
    let _: fn(&Lists, u32) -> u32 = Lists::len;
    let _: fn(&Lists, u32) -> Option<(u32, u32)> = Lists::place_of;
}

fn space() {
    let _: fn(Global, u8, u16, u8) -> Result<Space, AllocError> = Space::new;
    let _: fn(&mut Space, u8) -> Result<(u16, u16), PoolEmpty> = Space::grant;
    let _: fn(&mut Space, u8, u32) -> Result<u16, NoSlot> = Space::take_back;
    let _: fn(&mut Space, u8, u32) -> Result<(u16, u16), MoveRefusal> = Space::move_slot;
    let _: fn(&mut Space, u8, u32, u32) = Space::zero;
    let _: fn(&Space, u8, u32) -> Option<u16> = Space::machine_of;
    let _: fn(&Space, u16) -> Option<(u8, u16)> = Space::owner;
    let _: fn(&Space, u16) -> bool = Space::is_marked;
    let _: fn(&Space) -> u16 = Space::unowned;
}

fn buddy() {
    let _: fn(Global, u8, u16, u8) -> Result<Buddy, AllocError> = Buddy::new;
    let _: fn(&mut Buddy, u8, u16, u16) = Buddy::add_slot;
    let _: fn(&mut Buddy, u8, u16) -> Result<(), SlotBusy> = Buddy::drop_slot;
    let _: fn(&mut Buddy, u8, u16, u16) = Buddy::move_slot;
    let _: fn(&mut Buddy, u8) = Buddy::reset;
    let _: fn(&mut Buddy, u8, u8) -> Option<u32> = Buddy::reserve;
    let _: fn(&mut Buddy, u8, u32) -> Option<u8> = Buddy::release;
    let _: fn(&Buddy, u8, u32) -> Option<u8> = Buddy::live_order;
    let _: fn(&Buddy, u8, u32) -> Option<(u32, u8)> = Buddy::block_of;
    let _: fn(&Buddy, u8, u8) -> u32 = Buddy::free_count;
    let _: fn(&Buddy, u8, u8) -> u32 = Buddy::taken_count;
    let _: fn(&Buddy, u8) -> u32 = Buddy::slots;
}

fn layout() {
    let _: fn(u32, u32) -> Result<Layout, LayoutRefusal> = Layout::of;
    let _: fn(&Layout) -> u32 = Layout::size;
    let _: fn(&Layout) -> u32 = Layout::align;
    let _: fn(&Layout) -> u8 = Layout::order;
    let _: fn(&Layout) -> u32 = Layout::chunk;
    let _: fn(&Layout) -> u32 = Layout::count;
    let _: fn(&Layout) -> u32 = Layout::colours;
    let _: fn(&Layout) -> bool = Layout::in_page;
    let _: fn(&Layout, u32, u32) -> u32 = Layout::offset;
    let _: fn(&Layout, u32, u32) -> Option<u32> = Layout::index_of;
    let _: fn(&Layout, u32, u32, u32) -> Option<u32> = Layout::holder;
    let _: fn(&[u8]) -> Option<Pattern> = Pattern::new;
    let _: fn(&Pattern, &mut [u8]) = Pattern::fill;
}

fn slabs() {
    let _: fn(&Slabs, &Space, u8, u32) -> bool = Slabs::is_slab;
    let _: fn(&Slabs, &Space, &Buddy, u8, u32, u32) -> bool = Slabs::object_at;
    let _: fn(Global, u8, u16, u8) -> Result<Slabs, AllocError> = Slabs::new;
    let _: fn(&mut Slabs, u8, Layout, Pattern) -> Option<u8> = Slabs::create;
    let _: fn(&mut Slabs, &mut Space, &mut Buddy, u8, u32) -> Result<u32, TakeRefusal> =
        Slabs::take;
    let _: fn(&mut Slabs, &mut Space, &Buddy, u8, u32, u32) -> Result<(), GiveRefusal> =
        Slabs::give;
    let _: fn(&mut Slabs, &mut Space, &mut Buddy, u8, u32) -> Result<u32, DestroyRefusal> =
        Slabs::destroy;
    let _: fn(&mut Slabs, &mut Space, &mut Buddy, u8) -> u32 = Slabs::reap;
    let _: fn(&Slabs, &Space, &Buddy, u8, u8) -> bool = Slabs::would_fit;
    let _: fn(&mut Slabs, &mut Space, &mut Buddy, u8, u8) -> Option<u32> = Slabs::reserve_by_need;
    let _: fn(&mut Slabs, u8) = Slabs::reset;
    let _: fn(&mut Slabs, u8, u16, u16) = Slabs::move_slot;
    let _: fn(&Slabs, u8) -> ArrayVec<CacheRow, 32> = Slabs::rows;
}

fn words() {
    let _: fn(u32, Command) -> Event = Event::Tenant;
    let _: fn(&[u8]) -> Result<Option<Event>, LineFault> = read_line;
    let _: fn(Refusal) -> Body = Body::Refused;
    let _: fn(LineFault) -> Body = Body::Fault;
    let _: fn(&Refusal) -> u8 = Refusal::number;
    let _: fn(u8) -> Addressee = Addressee::Tenant;
    let _: fn(&Reply) -> usize = rows;
    let _: fn(&Reply, usize, &mut ArrayVec<u8, 256>) = write_line;
}

fn kernel() {
    let _: fn(Global, Config) -> Result<Kernel, BootError> = Kernel::boot;
    let _: fn(&mut Kernel, &Event) -> Reply = Kernel::step;
    let _: fn(&Kernel, u8, u32) -> Option<u16> = Kernel::superblock_of;
    let _: fn(&Kernel, u16) -> bool = Kernel::is_marked;
    let _: fn(&Kernel) -> u32 = Kernel::order;
    let _: fn(&Kernel) -> u32 = Kernel::superblocks;
    let _: fn(&Kernel) -> u32 = Kernel::tenants;
}

/// Returns the parts of a kernel, and the lists of its slabs.
fn parts(kernel: &Kernel) -> (&Space, &Buddy, &Slabs, &Lists) {
    let slabs: &Slabs = kernel.slabs();
    (kernel.space(), kernel.buddy(), slabs, slabs.lists())
}

/// Returns the bytes of superblock `m`, from the kernel and from its `Space`, and the words of its tree, if there is a superblock
/// `m`.
fn superblock(kernel: &Kernel, m: u16) -> Option<(&[u8], &[u8], &[u16])> {
    let (space, buddy, ..) = parts(kernel);
    if u32::from(m) < kernel.superblocks() && m < space.superblocks() && m < buddy.superblocks() {
        Some((
            kernel.machine_bytes(m),
            space.machine_bytes(m),
            buddy.table(m),
        ))
    } else {
        None
    }
}

fn replay_errors() {
    let _: fn(Tally) -> ReplayError = ReplayError::Feed;
    let _: fn(Tally) -> ReplayError = ReplayError::Drain;
}

fn replays<F: Feed, D: Drain>(
    kernel: &mut Kernel,
    feed: &mut F,
    drain: &mut D,
    only: Option<u8>,
) -> Result<Tally, ReplayError>
    requires feed { F.has_failed feed.old ≡ false }
    requires drain { D.has_failed drain.old ≡ false }
{
    replay(kernel, feed, drain, only)
}

fn feeds<R: Read>(reader: R) -> ReaderFeed<R> {
    ReaderFeed::new(reader)
}

fn drains<W: Write>(writer: W) -> WriterDrain<W> {
    WriterDrain::new(writer)
}

fn flushes<W: Write>(drain: &mut WriterDrain<W>) -> Result<(), Stopped>
    requires { ⟦<WriterDrain<W> as Drain>⟧.has_failed drain.old ≡ false }
{
    drain.flush()
}

#[test]
fn functions_have_these_types(rt: HostRuntime) -> Result<(), Fail> {
    let config: Config = Config {
        order: 3_u32,
        superblocks: 2_u32,
        tenants: 2_u32,
    };
    let booted = Kernel::boot(rt.alloc(), config)?;
    assert!(rt; superblock(&booted, 1).is_some());
    lists();
    space();
    buddy();
    layout();
    slabs();
    words();
    kernel();
    replay_errors();
    Ok(())
}
