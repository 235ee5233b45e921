//! Superblocks that are granted and taken back, and tenants that are reset.

use super::Row;

pub static ROWS: [Row; 10] = [
    // A grant takes the least superblock without an owner, and the least slot that the tenant does not hold.
    Row {
        trace: b"admin grant 1\nadmin grant 1\nadmin grant 0\n",
        output: b"admin> granted 1 slot 0 superblock 0\nadmin> granted 1 slot 1 superblock 1\n\
            admin> refused 13 PoolEmpty\n",
    },
    // Each tenant numbers its own frames from 0.
    Row {
        trace: b"admin grant 1\nadmin grant 0\n0 alloc 3\n1 alloc 1\n1 alloc 1\n0 alloc 0\n",
        output: b"admin> granted 1 slot 0 superblock 0\nadmin> granted 0 slot 0 superblock 1\n\
            0> frame 0\n1> frame 0\n1> frame 2\n0> refused 1 NoFrames\n",
    },
    // A tenant's frames are numbered through all its slots. The range of a read must lie in one block.
    Row {
        trace: b"admin grant 1\nadmin grant 1\n1 alloc 3\n1 alloc 3\n1 read 65535 1\n\
            1 read 32767 2\n",
        output: b"admin> granted 1 slot 0 superblock 0\nadmin> granted 1 slot 1 superblock 1\n\
            1> frame 0\n1> frame 8\n1> bytes 00\n1> refused 4 OutOfReach\n",
    },
    // An alloc uses the free block of the least order that is large enough, from any slot. After a take-back of slot 0, the next
    // grant uses slot 0 again.
    Row {
        trace: b"admin grant 0\nadmin grant 0\nadmin takeback 0 0\n0 alloc 0\nadmin grant 0\n\
            0 alloc 0\n0 alloc 3\n",
        output: b"admin> granted 0 slot 0 superblock 0\nadmin> granted 0 slot 1 superblock 1\n\
            admin> taken superblock 0\n0> frame 8\nadmin> granted 0 slot 0 superblock 0\n\
            0> frame 9\n0> frame 0\n",
    },
    // A superblock that is granted to another tenant reads as zero.
    Row {
        trace: b"admin grant 1\n1 alloc 0\n1 write 0 aa\n1 free 0\nadmin takeback 1 0\n\
            admin grant 0\n0 alloc 0\n0 read 0 1\n",
        output: b"admin> granted 1 slot 0 superblock 0\n1> frame 0\n1> written 1\n1> freed 0\n\
            admin> taken superblock 0\nadmin> granted 0 slot 0 superblock 0\n0> frame 0\n\
            0> bytes 00\n",
    },
    // If no superblock is free, a grant is refused. `admin pool` lists the owners. A reset takes back all slots of a tenant, even
    // those with taken frames.
    Row {
        trace: b"admin grant 1\nadmin grant 1\nadmin grant 0\nadmin pool\n1 alloc 3\n1 alloc 3\n\
            0 alloc 0\nadmin reset 1\n",
        output: b"admin> granted 1 slot 0 superblock 0\nadmin> granted 1 slot 1 superblock 1\n\
            admin> refused 13 PoolEmpty\nadmin> pool free 0 of 2\n\
            admin> superblock 0 tenant 1 slot 0\nadmin> superblock 1 tenant 1 slot 1\n\
            1> frame 0\n1> frame 8\n0> refused 1 NoFrames\nadmin> reset 1 superblocks 2\n",
    },
    // After a reset, all superblocks of the tenant are free.
    Row {
        trace: b"admin grant 1\n1 alloc 3\nadmin reset 1\nadmin pool\n",
        output: b"admin> granted 1 slot 0 superblock 0\n1> frame 0\n\
            admin> reset 1 superblocks 1\nadmin> pool free 2 of 2\nadmin> superblock 0 free\n\
            admin> superblock 1 free\n",
    },
    // A take-back is refused if a frame of the slot is taken. A reset takes the slot back, and it reads as zero when it is
    // granted again.
    Row {
        trace: b"admin grant 0\n0 alloc 3\n0 write 32767 ff\nadmin takeback 0 0\nadmin reset 0\n\
            0 read 32767 1\nadmin grant 0\n0 alloc 3\n0 read 32767 1\n",
        output: b"admin> granted 0 slot 0 superblock 0\n0> frame 0\n0> written 1\n\
            admin> refused 15 SlotBusy\nadmin> reset 0 superblocks 1\n0> refused 4 OutOfReach\n\
            admin> granted 0 slot 0 superblock 0\n0> frame 0\n0> bytes 00\n",
    },
    // Take-backs are refused for these reasons, in this order: no tenant, no slot, busy. A reset is refused if the tenant does
    // not exist.
    Row {
        trace: b"admin grant 0\n0 alloc 0\nadmin takeback 2 0\nadmin takeback 0 1\n\
            admin takeback 0 0\nadmin takeback 1 0\nadmin reset 2\nadmin takeback 0 4294967295\n\
            0 free 0\nadmin takeback 0 0\n",
        output: b"admin> granted 0 slot 0 superblock 0\n0> frame 0\nadmin> refused 12 NoTenant\n\
            admin> refused 14 NoSlot\nadmin> refused 15 SlotBusy\nadmin> refused 14 NoSlot\n\
            admin> refused 12 NoTenant\nadmin> refused 14 NoSlot\n0> freed 0\n\
            admin> taken superblock 0\n",
    },
    // A slot with frames in an empty slab is busy until the slab is freed. A slot that is granted again reads as zero.
    Row {
        trace: b"admin grant 0\n0 alloc 0\n0 free 0\n0 free 0\n0 cache 64 8 00\n0 take 0\n\
            0 free 0\n0 give 0 1\n0 give 0 0\n0 give 0 0\n0 give 1 0\nadmin takeback 0 0\n\
            0 reap\nadmin takeback 0 0\nadmin takeback 0 0\nadmin grant 0\n0 alloc 3\n\
            0 read 32767 1\n",
        output: b"admin> granted 0 slot 0 superblock 0\n0> frame 0\n0> freed 0\n\
            0> refused 3 NotABlock\n0> cache 0 chunk 64 order 0 objects 63 colours 5\n\
            0> object 0\n0> refused 3 NotABlock\n0> refused 11 NotAnObject\n0> given\n\
            0> refused 11 NotAnObject\n0> refused 9 NoCache\nadmin> refused 15 SlotBusy\n\
            0> reaped 1\nadmin> taken superblock 0\nadmin> refused 14 NoSlot\n\
            admin> granted 0 slot 0 superblock 0\n0> frame 0\n0> bytes 00\n",
    },
];
