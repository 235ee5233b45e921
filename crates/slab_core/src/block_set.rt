//! Sets of blocks of one order: one bit for each block, indexed by its number.

ghost use Rattle.std.specs.Prelude.{◌≡◌, ℕ, ◌<◌, ◌*◌, ◌==◌, ◌||◌, All, IfOk, length, vec_len};
ghost use Rattle.slab_core.specs.Fitting.{has_number};

use std::alloc::{AllocError, Global};

/// The number of words in a set with one bit for each of `WIDE_FRAMES` frames, as many as a tenant can have.
pub(crate) const MAX_WORDS: usize = 16_384;

/// Returns true if the set contains the block with this number.
pub(crate) fn has_block(words: &[u64], number: u32) -> bool
    requires { number < 64 * length words.now }
    ensures { result ≡ has_number words.now number }
{
    words[(number / 64) as usize] >> (number % 64) & 1 == 1
}

/// Adds the block with this number to the set.
pub(crate) fn add_block(words: &mut [u64], number: u32)
    requires { number < 64 * length words.old }
    ensures len { length words.new ≡ length words.old }
    ensures has { (n : ℕ) → has_number words.new n ≡ (n == number || has_number words.old n) }
{
    words[(number / 64) as usize] |= 1 << (number % 64);
}

/// Makes a set of `words` words for each of `tenants` tenants.
pub(crate) fn make_sets(
    alloc: Global,
    tenants: u8,
    words: usize,
) -> Result<Vec<Vec<u64>>, AllocError>
    ensures tenants { IfOk result (λ sets. vec_len sets ≡ tenants) }
    ensures words { IfOk result (λ sets. All (λ set. vec_len set ≡ words) sets.items) }
{
    let mut sets = Vec::with_capacity(alloc, usize::from(tenants))?;
    for _ in 0..tenants {
        sets.push(vec![in alloc; 0; words]?)?;
    }
    Ok(sets)
}
