//! Page blocks, and their bytes.

use super::Row;

pub static ROWS: [Row; 10] = [
    // The bytes of a new machine read as zero.
    Row {
        trace: b"admin grant 0\n0 alloc 0\n0 read 0 4\n",
        output: b"admin> granted 0 slot 0 superblock 0\n0> frame 0\n0> bytes 00000000\n",
    },
    // A tenant without superblocks has no frames.
    Row {
        trace: b"0 alloc 0\n0 report\n",
        output: b"0> refused 1 NoFrames\n0> frames 0 live 0 free 0 top none split 0\n\
            0> order 0 free 0 taken 0\n0> order 1 free 0 taken 0\n0> order 2 free 0 taken 0\n\
            0> order 3 free 0 taken 0\n",
    },
    // Blocks are split until no frame is free. Even then, an order above the order of a superblock is refused with `BadOrder`.
    Row {
        trace: b"admin grant 0\n0 alloc 0\n0 alloc 1\n0 alloc 2\n0 alloc 0\n0 alloc 0\n\
            0 alloc 4\n",
        output: b"admin> granted 0 slot 0 superblock 0\n0> frame 0\n0> frame 2\n0> frame 4\n\
            0> frame 1\n0> refused 1 NoFrames\n0> refused 2 BadOrder\n",
    },
    // Freed blocks join with their buddies, order by order, until the whole superblock is one free block.
    Row {
        trace: b"admin grant 0\n0 alloc 0\n0 alloc 1\n0 alloc 2\n0 alloc 0\n0 alloc 0\n\
            0 alloc 4\n0 free 0\n0 free 1\n0 free 2\n0 free 4\n0 report\n",
        output: b"admin> granted 0 slot 0 superblock 0\n0> frame 0\n0> frame 2\n0> frame 4\n\
            0> frame 1\n0> refused 1 NoFrames\n0> refused 2 BadOrder\n0> freed 0\n0> freed 0\n\
            0> freed 1\n0> freed 2\n0> frames 8 live 0 free 8 top 3 split 0\n\
            0> order 0 free 0 taken 0\n0> order 1 free 0 taken 0\n0> order 2 free 0 taken 0\n\
            0> order 3 free 1 taken 0\n",
    },
    // A free block that is too small is skipped. A report has the number of blocks of each order, and the share of the free
    // frames that are outside the greatest free block.
    Row {
        trace: b"admin grant 0\n0 alloc 0\n0 alloc 1\n0 alloc 2\n0 alloc 0\n0 alloc 0\n\
            0 alloc 4\n0 free 0\n0 free 4\n0 alloc 1\n0 report\n0 alloc 0\n",
        output: b"admin> granted 0 slot 0 superblock 0\n0> frame 0\n0> frame 2\n0> frame 4\n\
            0> frame 1\n0> refused 1 NoFrames\n0> refused 2 BadOrder\n0> freed 0\n0> freed 2\n\
            0> frame 4\n0> frames 8 live 5 free 3 top 1 split 334\n0> order 0 free 1 taken 1\n\
            0> order 1 free 1 taken 2\n0> order 2 free 0 taken 0\n0> order 3 free 0 taken 0\n\
            0> frame 0\n",
    },
    // A block joins its buddy only if the whole buddy is free.
    Row {
        trace: b"admin grant 0\n0 alloc 0\n0 alloc 0\n0 alloc 0\n0 free 0\n0 free 2\n0 alloc 1\n",
        output: b"admin> granted 0 slot 0 superblock 0\n0> frame 0\n0> frame 1\n0> frame 2\n\
            0> freed 0\n0> freed 0\n0> frame 2\n",
    },
    // An alloc uses the free block of the least order that is large enough, even if a larger one begins at a lower frame. A free
    // is refused if no block begins at its frame.
    Row {
        trace: b"admin grant 0\n0 alloc 2\n0 alloc 0\n0 free 0\n0 free 1\n0 alloc 0\n0 free 4\n\
            0 free 5\n0 alloc 3\n",
        output: b"admin> granted 0 slot 0 superblock 0\n0> frame 0\n0> frame 4\n0> freed 2\n\
            0> refused 3 NotABlock\n0> frame 5\n0> freed 0\n0> freed 0\n0> frame 0\n",
    },
    // A freed block keeps its bytes. Its tenant reads them again when it allocates the block again.
    Row {
        trace: b"admin grant 0\n0 alloc 0\n0 write 0 0a0B\n0 read 0 3\n0 free 0\n0 alloc 0\n\
            0 read 0 2\n",
        output: b"admin> granted 0 slot 0 superblock 0\n0> frame 0\n0> written 2\n\
            0> bytes 0a0b00\n0> freed 0\n0> frame 0\n0> bytes 0a0b\n",
    },
    // The range of a read must lie in one page block. A bad length is refused first, even if the range is also out of reach.
    Row {
        trace: b"admin grant 0\n0 alloc 0\n0 alloc 0\n0 read 4095 2\n0 read 4095 1\n\
            0 read 4294967295 64\n0 read 0 0\n0 read 4294967295 65\n",
        output: b"admin> granted 0 slot 0 superblock 0\n0> frame 0\n0> frame 1\n\
            0> refused 4 OutOfReach\n0> bytes 00\n0> refused 4 OutOfReach\n\
            0> refused 5 BadLength\n0> refused 5 BadLength\n",
    },
    // A write that is out of reach stores no byte.
    Row {
        trace: b"admin grant 0\n0 alloc 0\n0 alloc 0\n0 write 4095 aabb\n0 read 4095 1\n\
            0 write 4095 aa\n",
        output: b"admin> granted 0 slot 0 superblock 0\n0> frame 0\n0> frame 1\n\
            0> refused 4 OutOfReach\n0> bytes 00\n0> written 1\n",
    },
];
