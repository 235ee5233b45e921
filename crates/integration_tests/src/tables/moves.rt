//! Slots that are moved to another superblock, with everything in them.

use super::Row;

pub static ROWS: [Row; 2] = [
    // A slot that is moved to another superblock keeps its bytes. The superblock that it left is zeroed before it is granted. A
    // move is refused if no superblock is free, if the slot is not held, or if the tenant does not exist.
    Row {
        trace: b"admin grant 0\n0 alloc 0\n0 write 0 7f\nadmin move 0 0\n0 read 0 1\n\
            admin grant 1\n1 alloc 0\n1 read 0 1\nadmin move 0 0\nadmin move 0 1\n\
            admin move 2 0\n",
        output: b"admin> granted 0 slot 0 superblock 0\n0> frame 0\n0> written 1\n\
            admin> moved 0 slot 0 superblock 1\n0> bytes 7f\n\
            admin> granted 1 slot 0 superblock 0\n1> frame 0\n1> bytes 00\n\
            admin> refused 13 PoolEmpty\nadmin> refused 14 NoSlot\nadmin> refused 12 NoTenant\n",
    },
    // A slab moves with its objects to superblock 1, and back to superblock 0.
    Row {
        trace: b"admin grant 0\n0 cache 200 8 a5\n0 take 0\nadmin move 0 0\n0 take 0\n\
            admin move 0 0\n",
        output: b"admin> granted 0 slot 0 superblock 0\n\
            0> cache 0 chunk 200 order 0 objects 20 colours 9\n0> object 0\n\
            admin> moved 0 slot 0 superblock 1\n0> object 200\n\
            admin> moved 0 slot 0 superblock 0\n",
    },
];
