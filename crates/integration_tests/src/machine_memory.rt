//! The memory of a machine, read from outside: bytes whose superblock is granted again or moved, and the records of slabs.

use crate::running::{run, written_by};
use crate::tables::MACHINE;
use kernel_core::Kernel;
use std::alloc::Global;
use std::test::Fail;

/// Lines of a trace, and the state of a superblock after these lines: its number, byte 0, byte 4095, and whether it is marked.
type Step = (&'static [u8], u16, u8, u8, bool);

/// Written bytes are in the memory of the machine. They stay there after a take-back, which marks the superblock. The next grant
/// sets them to zero. A move copies them to another superblock, and marks the one that they leave.
const STEPS: [Step; 6] = [
    (
        b"admin grant 1\n1 alloc 0\n1 alloc 0\n1 write 4095 aabb\n",
        0,
        0,
        0,
        false,
    ),
    (b"1 write 0 aa\n1 write 4095 aa\n", 0, 0xaa, 0xaa, false),
    (
        b"1 free 0\n1 free 1\nadmin takeback 1 0\n",
        0,
        0xaa,
        0xaa,
        true,
    ),
    (b"admin grant 0\n", 0, 0, 0, false),
    (
        b"0 alloc 0\n0 write 0 7f\nadmin move 0 0\n",
        1,
        0x7f,
        0,
        false,
    ),
    (b"0 read 0 1\n", 0, 0x7f, 0, true),
];

#[test]
fn bytes_change_hands(rt: HostRuntime) -> Result<(), Fail> {
    let mut kernel = Kernel::boot(rt.alloc(), MACHINE)?;
    for (trace, superblock, first, last, marked) in STEPS {
        let _replies = written_by(rt.alloc(), &mut kernel, trace)?;
        assert!(rt; u32::from(superblock) < kernel.superblocks());
        let bytes = kernel.machine_bytes(superblock);
        let told = (bytes[0], bytes[4095], kernel.is_marked(superblock));
        assert_eq!(rt; told, (first, last, marked), "after {trace:?}");
    }
    assert_eq!(rt; kernel.superblock_of(0, 0), Some(1));
    assert_eq!(rt; kernel.superblock_of(1, 0), None);
    Ok(())
}

/// The size of a frame in bytes. A slab of small objects has a record in the last `RECORD_BYTES` bytes of its frame.
const FRAME_BYTES: usize = 4096;

const RECORD_BYTES: usize = 32;

/// The bits of 254 live objects: 31 bytes for 248 of them, and 6 bits more.
const FULLEST: &[u8] = b"\xff\xff\xff\xff\xff\xff\xff\xff\xff\xff\xff\xff\xff\xff\xff\xff\xff\xff\
    \xff\xff\xff\xff\xff\xff\xff\xff\xff\xff\xff\xff\xff\x3f";

/// A cache, the number of takes from it, and the lines after the takes. Then a superblock, one of its frames, and the record at
/// the end of that frame, without the record's last zeroes.
type Case = (&'static [u8], u32, &'static [u8], u16, usize, &'static [u8]);

/// A record has one bit for each object, and bit 0 of its first byte is for the first object. A bit is 1 if its object is live.
/// The bits after the last object are 0. A freed slab leaves a record of zeroes, and a move copies the record. A slab of large
/// objects has no record: the end of its frame belongs to an object.
const CASES: [Case; 8] = [
    (b"200 8 a5", 21, b"", 0, 0, b"\xff\xff\x0f"),
    (b"200 8 a5", 21, b"", 0, 1, b"\x01"),
    (
        b"200 8 a5",
        10,
        b"0 give 0 400\n0 give 0 600\n0 give 0 800\n0 give 0 1000\n0 give 0 1200\n0 give 0 1400\n0 give 0 1600\n",
        0,
        0,
        b"\x03\x02",
    ),
    (b"1 8 00", 254, b"", 0, 0, FULLEST),
    (b"1 8 00", 255, b"", 0, 1, b"\x01"),
    (b"100 8 5a", 1, b"0 give 0 0\n0 reap\n", 0, 0, b""),
    (b"200 8 a5", 1, b"admin move 0 0\n0 take 0\n", 1, 0, b"\x03"),
    (b"4096 8 00", 1, b"0 write 4064 0102\n", 0, 0, b"\x01\x02"),
];

#[test]
fn records_stand(rt: HostRuntime) -> Result<(), Fail> {
    for (number, case) in CASES.iter().enumerate() {
        assert!(rt; stands(rt.alloc(), case)?, "case {number}");
    }
    Ok(())
}

/// Returns whether the frame of a case ends with its record, after the lines of the case.
fn stands(alloc: Global, case: &Case) -> Result<bool, Fail> {
    let (_, _, _, superblock, frame, record) = *case;
    let trace = trace_of(alloc, case)?;
    let (kernel, _) = run(alloc, &trace)?;
    let mut want = record.to_vec(alloc)?;
    want.resize(RECORD_BYTES, 0)?;
    Ok(
        u32::from(superblock) < kernel.superblocks()
            && kernel
                .machine_bytes(superblock)
                .chunks(FRAME_BYTES)
                .nth(frame)
                .is_some_and(|bytes| bytes.ends_with(&want)),
    )
}

/// Returns the trace of a case: lines that make its cache and take its objects, and the lines after the takes.
fn trace_of(alloc: Global, case: &Case) -> Result<Vec<u8>, Fail> {
    let (cache, takes, after, ..) = *case;
    let mut trace = b"admin grant 0\n0 cache ".to_vec(alloc)?;
    trace.extend_from_slice(cache)?;
    for _object in 0..takes {
        trace.extend_from_slice(b"\n0 take 0")?;
    }
    trace.extend_from_slice(b"\n")?;
    trace.extend_from_slice(after)?;
    Ok(trace)
}
