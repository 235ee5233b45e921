//! Fixed values that the parts of a kernel return, alone and after the kernel has run a trace.

use crate::running::written_by;
use buddy_core::Buddy;
use kernel_core::{Config, Kernel};
use klist_core::Lists;
use slab_core::Slabs;
use space_core::Space;
use std::alloc::Global;
use std::process::Abort;
use std::test::Fail;

/// Returns a kernel with two superblocks of eight frames and two tenants, after it has run a trace.
fn kernel_after(alloc: Global, trace: &[u8]) -> Result<Kernel, Fail> {
    let config = Config {
        order: 3,
        superblocks: 2,
        tenants: 2,
    };
    let mut kernel = Kernel::boot(alloc, config)?;
    let _replies = written_by(alloc, &mut kernel, trace)?;
    Ok(kernel)
}

/// After these lines, all blocks are freed and joined to one block.
const JOINED: &[u8] = b"admin grant 0\n0 alloc 0\n0 alloc 1\n0 alloc 2\n0 alloc 0\n\
    0 free 0\n0 free 1\n0 free 2\n0 free 4\n";

/// After these lines, frame 0 is a free block. It was too small for the last alloc, whose block begins at frame 4.
const PASSED_OVER: &[u8] = b"admin grant 0\n0 alloc 0\n0 alloc 1\n0 alloc 2\n0 alloc 0\n\
    0 free 0\n0 free 4\n0 alloc 1\n";

/// After these lines, frames 2 and 3 are joined, and their buddy is split.
const BESIDE_SPLIT: &[u8] = b"admin grant 0\n0 alloc 0\n0 alloc 0\n0 alloc 0\n\
    0 free 0\n0 free 2\n";

/// Returns the number of free blocks of tenant 0 of each order, 0 to 3.
fn free_counts(rt: &impl Abort, buddy: &Buddy) -> [u32; 4] {
    assert!(rt; 0 < buddy.tenants());
    assert!(rt; buddy.order() == 3);
    [
        buddy.free_count(0, 0),
        buddy.free_count(0, 1),
        buddy.free_count(0, 2),
        buddy.free_count(0, 3),
    ]
}

#[test]
fn free_count_follows_splits(rt: HostRuntime) -> Result<(), Fail> {
    for (trace, counts) in [
        (JOINED, [0, 0, 0, 1]),
        (PASSED_OVER, [1, 1, 0, 0]),
        (BESIDE_SPLIT, [1, 1, 1, 0]),
    ] {
        let kernel = kernel_after(rt.alloc(), trace)?;
        let free = free_counts(&rt, kernel.buddy());
        assert!(rt; free == counts, "after {trace:?}");
    }
    Ok(())
}

/// The words of superblock 0's tree after `PASSED_OVER`. Each word is for a part of the superblock. Its bit `j` is 1 if a free
/// block of order `j` lies in that part.
const WORDS: [u16; 15] = [3, 1, 2, 1, 0, 0, 2, 1, 0, 0, 0, 0, 0, 0, 0];

#[test]
fn table_and_live_orders_follow_splits(rt: HostRuntime) -> Result<(), Fail> {
    let kernel = kernel_after(rt.alloc(), PASSED_OVER)?;
    let buddy = kernel.buddy();
    assert!(rt; 0 < buddy.superblocks());
    assert!(rt; buddy.table(0) == WORDS.as_slice());
    assert!(rt; 0 < buddy.tenants());
    assert!(rt; buddy.live_order(0, 4) == Some(1));
    assert!(rt; buddy.live_order(0, 5).is_none());
    Ok(())
}

/// Returns whether a block of the order would be found for tenant 0 if its empty slabs were freed.
fn would_fit(kernel: &Kernel, order: u8) -> bool {
    kernel.parts_agree();
    let (space, slabs) = (kernel.space(), kernel.slabs());
    0 < space.tenants()
        && order <= slabs.order()
        && slabs.would_fit(space, kernel.buddy(), 0, order)
}

/// After these lines, a slab has a live object, so it is not freed on demand and the whole superblock cannot become one block.
const LIVE_OBJECT: &[u8] = b"admin grant 0\n0 cache 64 8 00\n0 take 0\n";

const EMPTY_SLAB: &[u8] = b"admin grant 0\n0 cache 64 8 00\n0 take 0\n0 give 0 0\n";

#[test]
fn empty_slabs_would_fit(rt: HostRuntime) -> Result<(), Fail> {
    for (trace, fits) in [(LIVE_OBJECT, false), (EMPTY_SLAB, true)] {
        let kernel = kernel_after(rt.alloc(), trace)?;
        assert!(rt; would_fit(&kernel, 2), "after {trace:?}");
        assert!(rt; would_fit(&kernel, 3) == fits, "after {trace:?}");
    }
    Ok(())
}

#[test]
fn slots_have_owners_and_windows(rt: HostRuntime) -> Result<(), Fail> {
    let mut space = Space::new(rt.alloc(), 3, 2, 2)?;
    assert!(rt; space.unowned() == 2);
    let granted = space.grant(0)?;
    assert!(rt; granted == (0, 0));
    assert!(rt; space.unowned() == 1);
    assert!(rt; space.owner(0) == Some((0, 0)));
    assert!(rt; space.owner(1).is_none());
    let written: &mut [u8] = space.window_mut(0_u8, 32765_u32, 3_u32);
    written.copy_from_slice(&[1, 2, 3]);
    space.zero(0, 32766, 1);
    let window: Option<&[u8]> = space.window(0_u8, 32764_u32, 4_u32);
    assert!(rt; window == Some([0, 1, 0, 3].as_slice()));
    assert!(rt; space.window(0, 32767, 2).is_none());
    Ok(())
}

#[test]
fn parts_begin_empty(rt: HostRuntime) -> Result<(), Fail> {
    let lists = Lists::new(rt.alloc(), 4, 2)?;
    assert!(rt; lists.nodes() == 4);
    assert!(rt; lists.first(1).is_none());
    let buddy = Buddy::new(rt.alloc(), 3, 2, 2)?;
    assert!(rt; buddy.table(1) == [0; 15].as_slice());
    let slabs = Slabs::new(rt.alloc(), 3, 2, 2)?;
    assert!(rt; slabs.lists().nodes() == 16);
    Ok(())
}

/// After these lines, there is a page block at frame 0, and a slab at frame 1 whose first object, of 100 bytes, is live.
const OBJECT: &[u8] = b"admin grant 0\n0 alloc 0\n0 cache 100 8 5a\n0 take 0\n";

/// Returns whether a slab of tenant 0 begins at a frame.
fn is_slab(kernel: &Kernel, frame: u32) -> bool {
    kernel.parts_agree();
    0 < kernel.space().tenants() && kernel.slabs().is_slab(kernel.space(), 0, frame)
}

/// Returns whether a range of tenant 0 lies inside one live object.
fn object_at(kernel: &Kernel, place: u32, len: u32) -> bool {
    kernel.parts_agree();
    let space = kernel.space();
    0 < space.tenants()
        && kernel
            .slabs()
            .object_at(space, kernel.buddy(), 0, place, len)
}

#[test]
fn slabs_and_objects_are_found(rt: HostRuntime) -> Result<(), Fail> {
    let kernel = kernel_after(rt.alloc(), OBJECT)?;
    for (frame, found) in [(0, false), (1, true), (2, false), (8, false)] {
        assert!(rt; is_slab(&kernel, frame) == found, "frame {frame}");
    }
    for (place, len, found) in [
        (0, 1, false),
        (4096, 100, true),
        (4096, 101, false),
        (4195, 1, true),
        (4096, 0, false),
        (4200, 1, false),
    ] {
        assert!(rt;
            object_at(&kernel, place, len) == found,
            "{len} bytes at {place}"
        );
    }
    Ok(())
}

/// The sizes of a machine, and whether a wide machine may have them.
const SIZES: [(u32, u32, u32, bool); 10] = [
    (3, 1, 1, true),
    (8, 4096, 255, true),
    (10, 1024, 255, true),
    (10, 1025, 1, false),
    (9, 2049, 1, false),
    (3, 4097, 1, false),
    (2, 1, 1, false),
    (11, 1, 1, false),
    (3, 0, 1, false),
    (3, 1, 256, false),
];

#[test]
fn wide_machines_have_at_most_4_gib(rt: HostRuntime) -> Result<(), Fail> {
    for (order, superblocks, tenants, is_wide) in SIZES {
        let config = Config {
            order,
            superblocks,
            tenants,
        };
        assert!(rt; config.is_wide() == is_wide, "{config:?}");
    }
    Ok(())
}

#[test]
fn blocks_of_order_10_are_found(rt: HostRuntime) -> Result<(), Fail> {
    let mut buddy = Buddy::new(rt.alloc(), 10, 2, 1)?;
    buddy.add_slot(0, 1, 0);
    assert!(rt; buddy.reserve(0, 10) == Some(1024));
    assert!(rt; buddy.release(0, 1024) == Some(10));
    assert!(rt; buddy.reserve(0, 0) == Some(1024));
    Ok(())
}
