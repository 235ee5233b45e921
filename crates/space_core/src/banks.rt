//! The stored bytes of the superblocks: one vector for each superblock. If the vector is empty, the superblock reads as zero.

ghost use Rattle.std.specs.Prelude.{◌≡◌, ◌≢◌, ◌^◌, ◌<◌, ◌≤◌, length, replicate, IfOk, slice_set, vec_len, vec_capacity, ℕ, []};
ghost use Rattle.space_core.specs.Content.{bank};
ghost use Rattle.space_core.specs.Tables.{stored_rows};
ghost use Rattle.space_core.specs.Storage.{HaveCapacity, or_zeros};

use std::alloc::{AllocError, Global};

/// Empties the vector of superblock `m`, which then reads as zero.
pub(crate) fn clear_bank(banks: &mut Vec<Vec<u8>>, m: usize)
    requires { m < vec_len banks.old }
    ensures bytes { stored_rows banks.new ≡ slice_set (stored_rows banks.old) m [] }
    ensures capacity { (unit : ℕ) → HaveCapacity unit banks.old.items → HaveCapacity unit banks.new.items }
{
    banks[m].clear();
}

/// Fills the vector of superblock `m` with `unit` zeros if the vector is empty.
#[inline(always)]
pub(crate) fn write_out(banks: &mut Vec<Vec<u8>>, m: usize, unit: usize)
    requires bank { m < vec_len banks.old }
    requires capacity { HaveCapacity unit banks.old.items }
    ensures banks { stored_rows banks.new
        ≡ slice_set (stored_rows banks.old) m (or_zeros unit (bank (stored_rows banks.old) m)) }
    ensures capacity { HaveCapacity unit banks.new.items }
{
    if banks[m].is_empty() {
        zero_fill(&mut banks[m], unit);
    }
}

/// Chunk size of the zeroing loop, in bytes. Above 2 KiB the C library uses `rep stosb`, which is no faster.
const CLEARED: usize = 1536;

/// Sets `bytes` to `unit` zeros.
#[cold]
#[inline(never)]
fn zero_fill(bytes: &mut Vec<u8>, unit: usize)
    requires { unit ≤ vec_capacity bytes.old }
    ensures items { bytes.new.items ≡ replicate unit 0 }
    ensures capacity { unit ≤ vec_capacity bytes.new }
{
    bytes.clear();
    for i in 0..unit / CLEARED {
        bytes.resize((i + 1) * CLEARED, 0).unwrap();
    }
    bytes.resize(unit, 0).unwrap();
}

/// Copies the stored bytes of superblock `from` to superblock `to`.
pub(crate) fn copy_bank(banks: &mut Vec<Vec<u8>>, from: usize, to: usize)
    requires from { from < vec_len banks.old }
    requires to { to < vec_len banks.old }
    requires apart { from ≢ to }
    requires capacity { HaveCapacity (length (bank (stored_rows banks.old) from)) banks.old.items }
    ensures bytes { stored_rows banks.new ≡ slice_set (stored_rows banks.old) to (bank (stored_rows banks.old) from) }
    ensures capacity { (unit : ℕ) → HaveCapacity unit banks.old.items → HaveCapacity unit banks.new.items }
{
    if from < to {
        let (low, high) = banks.split_at_mut(to);
        copy_bytes(&mut high[0], &low[from]);
    } else {
        let (low, high) = banks.split_at_mut(from);
        copy_bytes(&mut low[to], &high[0]);
    }
}

/// Replaces the content of `bytes` by `source`.
fn copy_bytes(bytes: &mut Vec<u8>, source: &[u8])
    requires { length source.now ≤ vec_capacity bytes.old }
    ensures items { bytes.new.items ≡ source.now }
    ensures capacity { vec_capacity bytes.old ≤ vec_capacity bytes.new }
{
    bytes.clear();
    bytes.extend_from_slice(source).unwrap();
}

/// Sets stored byte `i` of superblock `m`. The vector of the superblock must not be empty.
pub(crate) fn set_byte_at(banks: &mut Vec<Vec<u8>>, m: usize, i: usize, byte: u8)
    requires bank { m < vec_len banks.old }
    requires byte { i < length (bank (stored_rows banks.old) m) }
    ensures bytes { stored_rows banks.new
        ≡ slice_set (stored_rows banks.old) m (slice_set (bank (stored_rows banks.old) m) i byte) }
    ensures capacity { (unit : ℕ) → HaveCapacity unit banks.old.items → HaveCapacity unit banks.new.items }
{
    banks[m][i] = byte;
}

/// Makes an empty vector for each of `count` superblocks, with a capacity of exactly `unit` bytes. The allocator of `partmem_c`
/// recognizes a superblock by this size.
pub(crate) fn make_banks(
    alloc: Global,
    count: usize,
    unit: usize,
) -> Result<Vec<Vec<u8>>, AllocError>
    requires { unit < 2 ^ 32 }
    ensures bytes { IfOk result (λ banks. stored_rows banks ≡ replicate count []) }
    ensures capacity { IfOk result (λ banks. HaveCapacity unit banks.items) }
{
    let mut banks = Vec::with_capacity(alloc, count)?;
    for _ in 0..count {
        banks.push(Vec::with_capacity(alloc, unit)?)?;
    }
    Ok(banks)
}
