//! Slabs that are freed, by a reap and on demand.

use super::Row;

pub static ROWS: [Row; 7] = [
    // The frames of a freed slab read as zero, and so does its record.
    Row {
        trace: b"admin grant 0\n0 cache 100 8 5a\n0 take 0\n0 read 0 2\n0 read 99 2\n0 give 0 0\n\
            0 read 0 1\n0 reap\n0 alloc 0\n0 read 0 2\n0 read 4064 2\n",
        output: b"admin> granted 0 slot 0 superblock 0\n\
            0> cache 0 chunk 104 order 0 objects 39 colours 2\n0> object 0\n0> bytes 5a5a\n\
            0> refused 4 OutOfReach\n0> given\n0> refused 4 OutOfReach\n0> reaped 1\n0> frame 0\n\
            0> bytes 0000\n0> bytes 0000\n",
    },
    // The first slab of a cache after a reap has the next colour. A new cache begins with the first colour, also if it has the
    // number of a destroyed cache.
    Row {
        trace: b"admin grant 0\n0 cache 200 8 a5\n0 take 0\n0 give 0 0\n0 reap\n0 take 0\n\
            0 give 0 8\n0 destroy 0\n0 cache 200 8 a5\n0 take 0\n",
        output: b"admin> granted 0 slot 0 superblock 0\n\
            0> cache 0 chunk 200 order 0 objects 20 colours 9\n0> object 0\n0> given\n\
            0> reaped 1\n0> object 8\n0> given\n0> destroyed 1\n\
            0> cache 0 chunk 200 order 0 objects 20 colours 9\n0> object 0\n",
    },
    // A reap reports the number of frames that it freed.
    Row {
        trace: b"admin grant 0\n0 cache 3000 8 01\n0 take 0\n0 give 0 0\n0 reap\n0 reap\n",
        output: b"admin> granted 0 slot 0 superblock 0\n\
            0> cache 0 chunk 3000 order 2 objects 5 colours 174\n0> object 0\n0> given\n\
            0> reaped 4\n0> reaped 0\n",
    },
    // If only an empty slab is in the way of a block, the slab is freed and the block is allocated there. While an object is
    // live, the slab stays.
    Row {
        trace: b"admin grant 0\n0 cache 64 8 00\n0 take 0\n0 alloc 3\n0 give 0 0\n0 alloc 3\n\
            0 read 4064 2\n0 report\n",
        output: b"admin> granted 0 slot 0 superblock 0\n\
            0> cache 0 chunk 64 order 0 objects 63 colours 5\n0> object 0\n\
            0> refused 1 NoFrames\n0> given\n0> frame 0\n0> bytes 0000\n\
            0> frames 8 live 8 free 0 top none split 0\n0> order 0 free 0 taken 0\n\
            0> order 1 free 0 taken 0\n0> order 2 free 0 taken 0\n0> order 3 free 0 taken 1\n\
            0> cache 0 full 0 partial 0 empty 0 live 0\n",
    },
    // No slab is freed on demand if the requested block would still not fit.
    Row {
        trace: b"admin grant 0\n0 alloc 0\n0 cache 64 8 00\n0 take 0\n0 give 0 4096\n0 alloc 3\n\
            0 report\n",
        output: b"admin> granted 0 slot 0 superblock 0\n0> frame 0\n\
            0> cache 0 chunk 64 order 0 objects 63 colours 5\n0> object 4096\n0> given\n\
            0> refused 1 NoFrames\n0> frames 8 live 2 free 6 top 2 split 334\n\
            0> order 0 free 0 taken 2\n0> order 1 free 1 taken 0\n0> order 2 free 1 taken 0\n\
            0> order 3 free 0 taken 0\n0> cache 0 full 0 partial 0 empty 1 live 0\n",
    },
    // A cache that requires a new slab gets the frames of another cache's empty slabs.
    Row {
        trace: b"admin grant 0\n0 cache 4096 8 11\n0 take 0\n0 take 0\n0 take 0\n0 take 0\n\
            0 take 0\n0 take 0\n0 take 0\n0 take 0\n0 give 0 0\n0 give 0 4096\n0 give 0 8192\n\
            0 give 0 12288\n0 give 0 16384\n0 give 0 20480\n0 give 0 24576\n0 give 0 28672\n\
            0 cache 3000 8 22\n0 take 1\n0 read 0 1\n0 report\n",
        output: b"admin> granted 0 slot 0 superblock 0\n\
            0> cache 0 chunk 4096 order 0 objects 1 colours 1\n0> object 0\n0> object 4096\n\
            0> object 8192\n0> object 12288\n0> object 16384\n0> object 20480\n0> object 24576\n\
            0> object 28672\n0> given\n0> given\n0> given\n0> given\n0> given\n0> given\n\
            0> given\n0> given\n0> cache 1 chunk 3000 order 2 objects 5 colours 174\n\
            0> object 0\n0> bytes 22\n0> frames 8 live 4 free 4 top 2 split 0\n\
            0> order 0 free 0 taken 0\n0> order 1 free 0 taken 0\n0> order 2 free 1 taken 1\n\
            0> order 3 free 0 taken 0\n0> cache 0 full 0 partial 0 empty 0 live 0\n\
            0> cache 1 full 0 partial 1 empty 0 live 1\n",
    },
    // A tenant without frames does not get another tenant's empty slabs.
    Row {
        trace: b"admin grant 1\n1 cache 64 8 00\n1 take 0\n1 give 0 0\n1 report\n0 alloc 0\n\
            1 report\n",
        output: b"admin> granted 1 slot 0 superblock 0\n\
            1> cache 0 chunk 64 order 0 objects 63 colours 5\n1> object 0\n1> given\n\
            1> frames 8 live 1 free 7 top 2 split 429\n1> order 0 free 1 taken 1\n\
            1> order 1 free 1 taken 0\n1> order 2 free 1 taken 0\n1> order 3 free 0 taken 0\n\
            1> cache 0 full 0 partial 0 empty 1 live 0\n0> refused 1 NoFrames\n\
            1> frames 8 live 1 free 7 top 2 split 429\n1> order 0 free 1 taken 1\n\
            1> order 1 free 1 taken 0\n1> order 2 free 1 taken 0\n1> order 3 free 0 taken 0\n\
            1> cache 0 full 0 partial 0 empty 1 live 0\n",
    },
];
