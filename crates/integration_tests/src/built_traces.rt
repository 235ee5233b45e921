//! Worked traces that code builds, since most of their lines are alike.

use crate::running::{PIECES, replayed};
use crate::tables::{MACHINE, WIDEST};
use kernel_core::Config;
use std::io::Write;
use std::process::Abort;
use std::test::Fail;

/// Checks that a trace has this output on a new machine of these sizes, in pieces of each size in `PIECES`.
fn expect_output(
    rt: &(impl AllocGlobal + Abort),
    config: Config,
    trace: &[u8],
    output: &[u8],
) -> Result<(), Fail> {
    for piece in PIECES {
        let (drain, _) = replayed(rt.alloc(), config, trace, piece, None)?;
        assert!(rt; drain.taken() == output, "in pieces of {piece}");
    }
    Ok(())
}

/// A frame holds 254 objects of 16 bytes and their record: 254 * 16 = 4096 - 32.
#[test]
fn the_255th_object_of_16_bytes_is_on_another_frame(rt: HostRuntime) -> Result<(), Fail> {
    let mut trace = b"admin grant 0\n0 cache 1 8 00\n".to_vec(rt.alloc())?;
    let mut output = b"admin> granted 0 slot 0 superblock 0\n\
        0> cache 0 chunk 16 order 0 objects 254 colours 1\n"
        .to_vec(rt.alloc())?;
    for object in 0..254_u32 {
        trace.extend_from_slice(b"0 take 0\n")?;
        write!(output, "0> object {}\n", 16 * object)?;
    }
    trace.extend_from_slice(b"0 take 0\n")?;
    output.extend_from_slice(b"0> object 4096\n")?;
    expect_output(&rt, MACHINE, &trace, &output)
}

#[test]
fn the_33rd_cache_is_refused_and_a_freed_number_is_the_next(rt: HostRuntime) -> Result<(), Fail> {
    let mut trace = Vec::new(rt.alloc());
    let mut output = Vec::new(rt.alloc());
    for cache in 0..32_u32 {
        trace.extend_from_slice(b"0 cache 16 8 00\n")?;
        write!(
            output,
            "0> cache {cache} chunk 16 order 0 objects 254 colours 1\n"
        )?;
    }
    trace.extend_from_slice(b"0 cache 16 8 00\n0 destroy 3\n0 cache 16 8 00\n")?;
    output.extend_from_slice(
        b"0> refused 8 NoCacheSlot\n0> destroyed 0\n\
            0> cache 3 chunk 16 order 0 objects 254 colours 1\n",
    )?;
    expect_output(&rt, MACHINE, &trace, &output)
}

#[test]
fn the_widest_pool_has_257_lines(rt: HostRuntime) -> Result<(), Fail> {
    let mut output = b"admin> pool free 256 of 256\n".to_vec(rt.alloc())?;
    for superblock in 0..256_u32 {
        write!(output, "admin> superblock {superblock} free\n")?;
    }
    expect_output(&rt, WIDEST, b"admin pool\n", &output)
}
