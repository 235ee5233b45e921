//! The examples at the roots of crates, as tests. `tests/documents --write` makes this file.

use std::test::Fail;

#[test]
#[rattlefmt::skip]
fn sets_core_example(rt: HostRuntime) -> Result<(), Fail> {
    use sets_core::BitSet;

    // The numbers below 256 without 0 to 69.
    let mut set = BitSet::full(rt.alloc(), 256)?;
    for number in 0..70 {
        set.remove(number);
    }
    assert_eq!(rt; set.first(), Some(70));
    set.insert(3);
    assert_eq!(rt; set.first(), Some(3));
    Ok(())
}

#[test]
#[rattlefmt::skip]
fn buddy_core_example(rt: HostRuntime) -> Result<(), Fail> {
    use buddy_core::Buddy;

    // Two superblocks of 2^3 frames, and one tenant, who gets superblock 1 as slot 0.
    let mut buddy = Buddy::new(rt.alloc(), 3, 2, 1)?;
    buddy.add_slot(0, 0, 1);
    assert_eq!(rt; buddy.free_count(0, 3), 1);
    assert_eq!(rt; buddy.reserve(0, 0), Some(0));
    assert_eq!(rt; buddy.free_count(0, 2), 1);
    assert_eq!(rt; buddy.release(0, 0), Some(0));
    assert_eq!(rt; buddy.free_count(0, 3), 1);
    Ok(())
}

#[test]
#[rattlefmt::skip]
fn words_core_example(rt: HostRuntime) -> Result<(), Fail> {
    use arrayvec::ArrayVec;
    use words_core::{Addressee, Body, Command, Event, Reply, read_line, write_line};

    let event = read_line(b"0 alloc 2")?;
    assert_eq!(rt; event, Some(Event::Tenant(0, Command::Alloc { order: 2 })));
    let reply = Reply { addressee: Addressee::Tenant(0), body: Body::Frame(4) };
    let mut line = ArrayVec::new();
    write_line(&reply, 0, &mut line);
    assert_eq!(rt; line.as_slice(), b"0> frame 4\n".as_slice());
    Ok(())
}

#[test]
#[rattlefmt::skip]
fn slab_core_example(rt: HostRuntime) -> Result<(), Fail> {
    use buddy_core::Buddy;
    use layout_core::{Layout, Pattern};
    use slab_core::Slabs;
    use space_core::Space;

    let mut space = Space::new(rt.alloc(), 3, 2, 2)?;
    let mut buddy = Buddy::new(rt.alloc(), 3, 2, 2)?;
    let mut slabs = Slabs::new(rt.alloc(), 3, 2, 2)?;
    let (slot, superblock) = space.grant(0)?;
    buddy.add_slot(0, slot, superblock);
    let pattern = Pattern::new(b"\xa5").unwrap();
    slabs.create(0, Layout::of(200, 8)?, pattern);
    assert_eq!(rt; slabs.take(&mut space, &mut buddy, 0, 0), Ok(0));
    assert_eq!(rt; space.window(0, 0, 2), Some([0xa5, 0xa5].as_slice()));
    Ok(())
}

#[test]
#[rattlefmt::skip]
fn kernel_core_example(rt: HostRuntime) -> Result<(), Fail> {
    use kernel_core::{Config, Kernel};
    use words_core::{Addressee, AdminCommand, Body, Command, Event, Refusal};

    let config = Config { order: 3, superblocks: 2, tenants: 2 };
    let mut kernel = Kernel::boot(rt.alloc(), config)?;
    let granted = kernel.step(&Event::Admin(AdminCommand::Grant { tenant: 0 }));
    let answered = kernel.step(&Event::Tenant(0, Command::Alloc { order: 1 }));
    let refused = kernel.step(&Event::Tenant(1, Command::Alloc { order: 1 }));
    assert_eq!(rt; granted.body, Body::Granted { tenant: 0, slot: 0, superblock: 0 });
    assert_eq!(rt; answered.body, Body::Frame(0));
    assert_eq!(rt; refused.addressee, Addressee::Tenant(1));
    assert_eq!(rt; refused.body, Body::Refused(Refusal::NoFrames));
    Ok(())
}

#[test]
#[rattlefmt::skip]
fn replay_core_example(rt: HostRuntime) -> Result<(), Fail> {
    use kernel_core::{Config, Kernel};
    use replay_core::{ReaderFeed, WriterDrain, replay};

    let config = Config { order: 3, superblocks: 2, tenants: 2 };
    let mut kernel = Kernel::boot(rt.alloc(), config)?;
    let mut feed = ReaderFeed::new(b"admin grant 0\n0 alloc 1\n".as_slice());
    let mut replies = Vec::new(rt.alloc());
    replay(&mut kernel, &mut feed, &mut WriterDrain::new(&mut replies), None)?;
    let lines = b"admin> granted 0 slot 0 superblock 0\n0> frame 0\n";
    assert_eq!(rt; replies.as_slice(), lines.as_slice());
    Ok(())
}
