//! Reads each command from its arguments. If the number of arguments is wrong, the fault is `Words`; otherwise the first malformed
//! argument determines the fault.

ghost use Rattle.std.specs.Prelude.{◌≡◌, ◌<◌, ◌^◌, map};
ghost use Rattle.words_core.specs.Commands.{argument, bytes_argument, grant_row, take_back_row, reset_row, move_row, pool_row, alloc_row, free_row, read_row, write_row, cache_row, destroy_row, take_row, give_row, reap_row, report_row};
ghost use Rattle.words_core.specs.Grammar.{command_by};

use crate::event::{AdminCommand, Command, LineFault};
use crate::numbers::number;
use arrayvec::ArrayVec;

/// Reads a word as a decimal number.
fn argument(word: &[u8]) -> Result<u32, LineFault>
    ensures { result ≡ argument word.now }
{
    number(word).ok_or(LineFault::Number)
}

/// Reads a word as bytes in hex: at least one byte, and at most `N` bytes.
fn bytes_argument<const N: usize>(word: &[u8]) -> Result<ArrayVec<u8, N>, LineFault>
    requires { N < 2 ^ 32 }
    ensures { result ≡ bytes_argument N word.now }
{
    if word.len() < 2 || word.len() > 2 * N {
        return Err(LineFault::Hex);
    }
    let mut bytes = ArrayVec::from_array_in((), [0; N]);
    bytes.truncate(word.len() / 2);
    match hex::decode_to_slice(word, bytes.as_mut_slice()) {
        Ok(()) => Ok(bytes),
        Err(_) => Err(LineFault::Hex),
    }
}

/// Reads `grant TENANT`, which gives a superblock to a tenant.
pub fn grant_of(arguments: &[&[u8]]) -> Result<AdminCommand, LineFault>
    ensures { result ≡ command_by grant_row (map (λ word. word.now) arguments.now) }
{
    let [tenant] = arguments else {
        return Err(LineFault::Words);
    };
    let tenant = argument(tenant)?;
    Ok(AdminCommand::Grant { tenant })
}

/// Reads `takeback TENANT SLOT`, which returns the superblock in a slot to the pool.
pub fn take_back_of(arguments: &[&[u8]]) -> Result<AdminCommand, LineFault>
    ensures { result ≡ command_by take_back_row (map (λ word. word.now) arguments.now) }
{
    let [tenant, slot] = arguments else {
        return Err(LineFault::Words);
    };
    let tenant = argument(tenant)?;
    let slot = argument(slot)?;
    Ok(AdminCommand::TakeBack { tenant, slot })
}

/// Reads `reset TENANT`, which takes back everything that a tenant has.
pub fn reset_of(arguments: &[&[u8]]) -> Result<AdminCommand, LineFault>
    ensures { result ≡ command_by reset_row (map (λ word. word.now) arguments.now) }
{
    let [tenant] = arguments else {
        return Err(LineFault::Words);
    };
    let tenant = argument(tenant)?;
    Ok(AdminCommand::Reset { tenant })
}

/// Reads `move TENANT SLOT`, which moves a slot to another superblock.
pub fn move_of(arguments: &[&[u8]]) -> Result<AdminCommand, LineFault>
    ensures { result ≡ command_by move_row (map (λ word. word.now) arguments.now) }
{
    let [tenant, slot] = arguments else {
        return Err(LineFault::Words);
    };
    let tenant = argument(tenant)?;
    let slot = argument(slot)?;
    Ok(AdminCommand::Move { tenant, slot })
}

/// Reads `pool`, which lists the owner of each superblock.
pub fn pool_of(arguments: &[&[u8]]) -> Result<AdminCommand, LineFault>
    ensures { result ≡ command_by pool_row (map (λ word. word.now) arguments.now) }
{
    let [] = arguments else {
        return Err(LineFault::Words);
    };
    Ok(AdminCommand::Pool)
}

/// Reads `alloc ORDER`, which allocates a page block of `2^ORDER` frames.
pub fn alloc_of(arguments: &[&[u8]]) -> Result<Command, LineFault>
    ensures { result ≡ command_by alloc_row (map (λ word. word.now) arguments.now) }
{
    let [order] = arguments else {
        return Err(LineFault::Words);
    };
    let order = argument(order)?;
    Ok(Command::Alloc { order })
}

/// Reads `free FRAME`, which frees the page block that begins at a frame.
pub fn free_of(arguments: &[&[u8]]) -> Result<Command, LineFault>
    ensures { result ≡ command_by free_row (map (λ word. word.now) arguments.now) }
{
    let [frame] = arguments else {
        return Err(LineFault::Words);
    };
    let frame = argument(frame)?;
    Ok(Command::Free { frame })
}

/// Reads `read PLACE LEN`, which reads the `LEN` bytes that begin at a place.
pub fn read_of(arguments: &[&[u8]]) -> Result<Command, LineFault>
    ensures { result ≡ command_by read_row (map (λ word. word.now) arguments.now) }
{
    let [place, len] = arguments else {
        return Err(LineFault::Words);
    };
    let place = argument(place)?;
    let len = argument(len)?;
    Ok(Command::Read { place, len })
}

/// Reads `write PLACE HEX`, which writes bytes to the range that begins at a place.
pub fn write_of(arguments: &[&[u8]]) -> Result<Command, LineFault>
    ensures { result ≡ command_by write_row (map (λ word. word.now) arguments.now) }
{
    let [place, bytes] = arguments else {
        return Err(LineFault::Words);
    };
    let place = argument(place)?;
    let bytes = bytes_argument(bytes)?;
    Ok(Command::Write { place, bytes })
}

/// Reads `cache SIZE ALIGN HEX`, which makes a cache whose constructed objects are filled with a pattern.
pub fn cache_of(arguments: &[&[u8]]) -> Result<Command, LineFault>
    ensures { result ≡ command_by cache_row (map (λ word. word.now) arguments.now) }
{
    let [size, align, pattern] = arguments else {
        return Err(LineFault::Words);
    };
    let size = argument(size)?;
    let align = argument(align)?;
    let pattern = bytes_argument(pattern)?;
    Ok(Command::Cache {
        size,
        align,
        pattern,
    })
}

/// Reads `destroy CACHE`, which destroys a cache and frees its slabs.
pub fn destroy_of(arguments: &[&[u8]]) -> Result<Command, LineFault>
    ensures { result ≡ command_by destroy_row (map (λ word. word.now) arguments.now) }
{
    let [cache] = arguments else {
        return Err(LineFault::Words);
    };
    let cache = argument(cache)?;
    Ok(Command::Destroy { cache })
}

/// Reads `take CACHE`, which takes an object from a cache.
pub fn take_of(arguments: &[&[u8]]) -> Result<Command, LineFault>
    ensures { result ≡ command_by take_row (map (λ word. word.now) arguments.now) }
{
    let [cache] = arguments else {
        return Err(LineFault::Words);
    };
    let cache = argument(cache)?;
    Ok(Command::Take { cache })
}

/// Reads `give CACHE PLACE`, which gives an object back to its cache.
pub fn give_of(arguments: &[&[u8]]) -> Result<Command, LineFault>
    ensures { result ≡ command_by give_row (map (λ word. word.now) arguments.now) }
{
    let [cache, place] = arguments else {
        return Err(LineFault::Words);
    };
    let cache = argument(cache)?;
    let place = argument(place)?;
    Ok(Command::Give { cache, place })
}

/// Reads `reap`, which frees all empty slabs of the tenant.
pub fn reap_of(arguments: &[&[u8]]) -> Result<Command, LineFault>
    ensures { result ≡ command_by reap_row (map (λ word. word.now) arguments.now) }
{
    let [] = arguments else {
        return Err(LineFault::Words);
    };
    Ok(Command::Reap)
}

/// Reads `report`, which reports the figures of the tenant's memory.
pub fn report_of(arguments: &[&[u8]]) -> Result<Command, LineFault>
    ensures { result ≡ command_by report_row (map (λ word. word.now) arguments.now) }
{
    let [] = arguments else {
        return Err(LineFault::Words);
    };
    Ok(Command::Report)
}
