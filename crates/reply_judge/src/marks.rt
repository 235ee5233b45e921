//! Marks of the caches that may have an empty slab.

ghost use Rattle.std.specs.Prelude.{◌≡◌, ◌<◌, ◌==◌, ◌&&◌, ◌||◌, ℕ, false, not, nat_lt, slice_index_or};
ghost use Rattle.model_core.specs.declared.limits.TheConstants.{MAX_CACHES};
ghost use Rattle.promise_core.specs.Holdings.{known_cache};
ghost use Rattle.promise_core.specs.State.{is_in_use};

use known_holdings::Held;
use words_core::CACHES;

/// Sets the mark of the cache with this number.
pub(crate) fn set_mark(marks: &mut [bool; CACHES], number: u32)
    requires { number < MAX_CACHES }
    ensures { (n : ℕ) → slice_index_or marks.new n false ≡ (n == number || slice_index_or marks.old n false) }
{
    marks[number as usize] = true;
}

/// Clears the mark of the cache with this number, if there is one.
pub(crate) fn clear_mark(marks: &mut [bool; CACHES], number: u32)
    ensures { (n : ℕ) → slice_index_or marks.new n false ≡ (not (n == number) && slice_index_or marks.old n false) }
{
    if (number as usize) < CACHES {
        marks[number as usize] = false;
    }
}

/// Returns marks that are set for the caches that have a live object.
pub(crate) fn marks_of_used(held: &Held) -> [bool; CACHES]
    ensures { (n : ℕ) → slice_index_or result n false ≡ (nat_lt n MAX_CACHES && is_in_use (known_cache held.now n)) }
{
    let mut marks = [false; CACHES];
    for n in 0..CACHES {
        marks[n] = is_used(held, n as u32);
    }
    marks
}

/// Returns whether the cache with this number exists and has a live object.
fn is_used(held: &Held, number: u32) -> bool
    ensures { result ≡ is_in_use (known_cache held.now number) }
{
    match held.cache(number) {
        Some(cache) => cache.is_in_use(),
        None => false,
    }
}
