//! Caches, and the objects of their slabs.

use super::Row;

pub static ROWS: [Row; 9] = [
    // When all objects of a slab are taken, the next take makes a second slab. Its colour differs, so its first object begins at
    // another offset. The report counts both slabs as taken blocks.
    Row {
        trace: b"admin grant 0\n0 cache 200 8 a5\n0 take 0\n0 take 0\n0 take 0\n0 take 0\n\
            0 take 0\n0 take 0\n0 take 0\n0 take 0\n0 take 0\n0 take 0\n0 take 0\n0 take 0\n\
            0 take 0\n0 take 0\n0 take 0\n0 take 0\n0 take 0\n0 take 0\n0 take 0\n0 take 0\n\
            0 take 0\n0 report\n",
        output: b"admin> granted 0 slot 0 superblock 0\n\
            0> cache 0 chunk 200 order 0 objects 20 colours 9\n0> object 0\n0> object 200\n\
            0> object 400\n0> object 600\n0> object 800\n0> object 1000\n0> object 1200\n\
            0> object 1400\n0> object 1600\n0> object 1800\n0> object 2000\n0> object 2200\n\
            0> object 2400\n0> object 2600\n0> object 2800\n0> object 3000\n0> object 3200\n\
            0> object 3400\n0> object 3600\n0> object 3800\n0> object 4104\n\
            0> frames 8 live 2 free 6 top 2 split 334\n0> order 0 free 0 taken 2\n\
            0> order 1 free 1 taken 0\n0> order 2 free 1 taken 0\n0> order 3 free 0 taken 0\n\
            0> cache 0 full 1 partial 1 empty 0 live 21\n",
    },
    // 504 is the greatest chunk whose slabs have a record after their objects, and 512 is the least chunk whose slabs have none.
    Row {
        trace: b"0 cache 504 8 01\n0 cache 505 8 01\n",
        output: b"0> cache 0 chunk 504 order 0 objects 8 colours 5\n\
            0> cache 1 chunk 512 order 0 objects 8 colours 1\n",
    },
    // A slab can have several frames, and the next slab has another colour. Sizes are checked before alignments.
    Row {
        trace: b"admin grant 0\n0 cache 3000 8 01\n0 take 0\n0 take 0\n0 take 0\n0 take 0\n\
            0 take 0\n0 take 0\n0 cache 4097 8 00\n0 cache 1 12 00\n0 cache 0 12 00\n",
        output: b"admin> granted 0 slot 0 superblock 0\n\
            0> cache 0 chunk 3000 order 2 objects 5 colours 174\n0> object 0\n0> object 3000\n\
            0> object 6000\n0> object 9000\n0> object 12000\n0> object 16392\n\
            0> refused 6 BadSize\n0> refused 7 BadAlign\n0> refused 6 BadSize\n",
    },
    // Objects read as the pattern. A read must be within one object, and the object must be live.
    Row {
        trace: b"admin grant 0\n0 cache 100 8 5a\n0 take 0\n0 read 0 2\n0 read 99 2\n0 give 0 0\n\
            0 read 0 1\n",
        output: b"admin> granted 0 slot 0 superblock 0\n\
            0> cache 0 chunk 104 order 0 objects 39 colours 2\n0> object 0\n0> bytes 5a5a\n\
            0> refused 4 OutOfReach\n0> given\n0> refused 4 OutOfReach\n",
    },
    // A block can be freed only once, and a slab is not freed as a page block. An object can be given back only once, only at its
    // first byte, and only to its cache.
    Row {
        trace: b"admin grant 0\n0 alloc 0\n0 free 0\n0 free 0\n0 cache 64 8 00\n0 take 0\n\
            0 free 0\n0 give 0 1\n0 give 0 0\n0 give 0 0\n0 give 1 0\n",
        output: b"admin> granted 0 slot 0 superblock 0\n0> frame 0\n0> freed 0\n\
            0> refused 3 NotABlock\n0> cache 0 chunk 64 order 0 objects 63 colours 5\n\
            0> object 0\n0> refused 3 NotABlock\n0> refused 11 NotAnObject\n0> given\n\
            0> refused 11 NotAnObject\n0> refused 9 NoCache\n",
    },
    // A take uses a partial slab before an empty one. An object that was given back keeps its bytes. A destroy is refused if the
    // cache has a live object.
    Row {
        trace: b"admin grant 0\n0 cache 2048 8 11\n0 take 0\n0 take 0\n0 take 0\n\
            0 write 2048 22\n0 give 0 4096\n0 give 0 2048\n0 take 0\n0 read 2048 2\n0 destroy 0\n\
            0 give 0 0\n0 give 0 2048\n0 destroy 0\n0 take 0\n",
        output: b"admin> granted 0 slot 0 superblock 0\n\
            0> cache 0 chunk 2048 order 0 objects 2 colours 1\n0> object 0\n0> object 2048\n\
            0> object 4096\n0> written 1\n0> given\n0> given\n0> object 2048\n0> bytes 2211\n\
            0> refused 10 CacheInUse\n0> given\n0> given\n0> destroyed 2\n0> refused 9 NoCache\n",
    },
    // Each cache counts its colours separately, so the first slab of each cache has the first colour.
    Row {
        trace: b"admin grant 0\n0 cache 200 8 a5\n0 cache 200 8 a5\n0 take 0\n0 take 1\n",
        output: b"admin> granted 0 slot 0 superblock 0\n\
            0> cache 0 chunk 200 order 0 objects 20 colours 9\n\
            0> cache 1 chunk 200 order 0 objects 20 colours 9\n0> object 0\n0> object 4096\n",
    },
    // A take is refused if the cache has no slab, and no block is free for a new slab. The cache can still be used later.
    Row {
        trace: b"0 cache 200 8 a5\n0 take 0\nadmin grant 0\n0 take 0\n",
        output: b"0> cache 0 chunk 200 order 0 objects 20 colours 9\n0> refused 1 NoFrames\n\
            admin> granted 0 slot 0 superblock 0\n0> object 0\n",
    },
    // A size and an alignment decide the chunk, the order, and the numbers of objects and colours.
    Row {
        trace: b"0 cache 1 8 00\n0 cache 16 16 00\n0 cache 17 8 00\n0 cache 24 8 00\n\
            0 cache 64 8 00\n0 cache 64 64 00\n0 cache 65 64 00\n0 cache 100 8 00\n\
            0 cache 200 8 00\n0 cache 256 256 00\n0 cache 504 8 00\n0 cache 505 8 00\n\
            0 cache 600 8 00\n0 cache 700 8 00\n0 cache 1024 8 00\n0 cache 1500 8 00\n\
            0 cache 2048 8 00\n0 cache 2100 8 00\n0 cache 2800 8 00\n0 cache 3000 8 00\n\
            0 cache 4095 256 00\n0 cache 4096 8 00\n",
        output: b"0> cache 0 chunk 16 order 0 objects 254 colours 1\n\
            0> cache 1 chunk 16 order 0 objects 254 colours 1\n\
            0> cache 2 chunk 24 order 0 objects 169 colours 2\n\
            0> cache 3 chunk 24 order 0 objects 169 colours 2\n\
            0> cache 4 chunk 64 order 0 objects 63 colours 5\n\
            0> cache 5 chunk 64 order 0 objects 63 colours 1\n\
            0> cache 6 chunk 128 order 0 objects 31 colours 2\n\
            0> cache 7 chunk 104 order 0 objects 39 colours 2\n\
            0> cache 8 chunk 200 order 0 objects 20 colours 9\n\
            0> cache 9 chunk 256 order 0 objects 15 colours 1\n\
            0> cache 10 chunk 504 order 0 objects 8 colours 5\n\
            0> cache 11 chunk 512 order 0 objects 8 colours 1\n\
            0> cache 12 chunk 600 order 0 objects 6 colours 63\n\
            0> cache 13 chunk 704 order 1 objects 11 colours 57\n\
            0> cache 14 chunk 1024 order 0 objects 4 colours 1\n\
            0> cache 15 chunk 1504 order 1 objects 5 colours 85\n\
            0> cache 16 chunk 2048 order 0 objects 2 colours 1\n\
            0> cache 17 chunk 2104 order 2 objects 7 colours 208\n\
            0> cache 18 chunk 2800 order 3 objects 11 colours 247\n\
            0> cache 19 chunk 3000 order 2 objects 5 colours 174\n\
            0> cache 20 chunk 4096 order 0 objects 1 colours 1\n\
            0> cache 21 chunk 4096 order 0 objects 1 colours 1\n",
    },
];
