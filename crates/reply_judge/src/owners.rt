//! The owners of superblocks.

ghost use Rattle.std.specs.Prelude.{◌≡◌, ◌≤◌, ◌==◌, ◌&&◌, ℕ, Option, Some, false, is_none, is_some, count_by, length, map, slice_set};
ghost use Rattle.std.specs.List.{list_all, slice_get, zip};
ghost use Rattle.std.specs.Option.{option_map_or, option_eq};
ghost use Rattle.model_core.specs.declared.limits.TheConstants.{MAX_SUPERBLOCKS};
ghost use Rattle.model_core.specs.Owners.{owned_by, is_of, is_owner};
ghost use Rattle.words_core.specs.declared.event.Event.TheVariants as On;
ghost use Rattle.words_core.specs.declared.event.AdminCommand.TheVariants as Do;
ghost use Rattle.words_core.specs.declared.reply.Body.TheVariants as Say;
ghost use Rattle.world_core.specs.World.{given_up};
ghost use Rattle.promise_core.specs.State.{State, Known};
ghost use Rattle.reply_judge.specs.Judged.{verdict_on};
ghost use Rattle.reply_judge.specs.WrongOwners.{is_wrong, wrong_owner};

use crate::verdict::{Verdict, on_answer};
use arrayvec::ArrayVec;
use model_core::owner::Owner;
use promise_core::promise::Promise;
use words_core::OWNERS;

/// Returns whether a reset of tenant `t` may report this tenant and this number of superblocks.
pub(crate) fn are_counted(owners: &[Option<Owner>], t: u32, tenant: u8, superblocks: u16) -> bool
    ensures { result ≡ (tenant == t && superblocks == count_by (is_of t) owners.now) }
{
    u32::from(tenant) == t && usize::from(superblocks) == count_of(owners, t)
}

/// Returns whether a grant to tenant `t` may report this tenant and this superblock.
pub(crate) fn is_granted_to(owners: &[Option<Owner>], t: u32, tenant: u8, superblock: u16) -> bool
    ensures { result ≡ (tenant == t && option_map_or is_none (slice_get owners.now superblock) false) }
{
    u32::from(tenant) == t && is_unowned(owners, superblock)
}

/// Returns whether a move of a slot of tenant `t` may report this tenant and this slot.
pub(crate) fn is_slot_named(t: u32, slot: u32, tenant: u8, named: u16) -> bool
    ensures { result ≡ (tenant == t && named == slot) }
{
    u32::from(tenant) == t && u32::from(named) == slot
}

/// Returns the number of superblocks that the tenant owns.
pub(crate) fn count_of(owners: &[Option<Owner>], t: u32) -> usize
    ensures { result ≡ count_by (is_of t) owners.now }
{
    owners.iter().filter(|owner| is_of(**owner, t)).count()
}

/// Returns whether the owner is tenant `t`.
fn is_of(owner: Option<Owner>, t: u32) -> bool
    ensures { result ≡ is_of t owner }
{
    match owner {
        Some(owner) => u32::from(owner.tenant) == t,
        None => false,
    }
}

/// Returns whether every superblock has an owner.
pub(crate) fn are_all_owned(owners: &[Option<Owner>]) -> bool
    ensures { result ≡ list_all is_some owners.now }
{
    owners.iter().all(|owner| owner.is_some())
}

/// Returns whether the superblock exists and the tenant owns it under this slot.
pub(crate) fn is_owned_by(owners: &[Option<Owner>], superblock: u16, t: u32, slot: u32) -> bool
    ensures { result ≡ option_map_or (is_owner t slot) (slice_get owners.now superblock) false }
{
    match owners.get(usize::from(superblock)) {
        Some(Some(owner)) => u32::from(owner.tenant) == t && u32::from(owner.slot) == slot,
        Some(None) => false,
        None => false,
    }
}

/// Returns whether the superblock exists and nobody owns it.
pub(crate) fn is_unowned(owners: &[Option<Owner>], superblock: u16) -> bool
    ensures { result ≡ option_map_or is_none (slice_get owners.now superblock) false }
{
    match owners.get(usize::from(superblock)) {
        Some(owner) => owner.is_none(),
        None => false,
    }
}

/// Returns the verdict on a reported table of owners.
pub(crate) fn judge_pool(
    owners: &[Option<Owner>],
    table: &ArrayVec<Option<Owner>, OWNERS>,
) -> Verdict
    ensures { (w : Known) (s : State) → result
        ≡ verdict_on (On.Admin Do.Pool) (Say.Owners table.now) (record w { owners = owners.now }) s }
{
    on_answer(None, Promise::Owners, is_table(owners, table))
}

/// Returns whether the reported table `table` is the table of owners.
fn is_table(owners: &[Option<Owner>], table: &ArrayVec<Option<Owner>, OWNERS>) -> bool
    ensures { result ≡ (length table.now.items == length owners.now
        && list_all (λ p. option_eq (λ x y. x.tenant == y.tenant && x.slot == y.slot) p.0 p.1) (zip table.now.items owners.now)) }
{
    table.len() == owners.len() && are_same(owners, table.as_slice())
}

fn are_same(owners: &[Option<Owner>], table: &[Option<Owner>]) -> bool
    ensures { result ≡ list_all (λ p. option_eq (λ x y. x.tenant == y.tenant && x.slot == y.slot) p.0 p.1)
        (zip table.now owners.now) }
{
    table.iter().zip(owners).all(|(a, b)| is_same(*a, *b))
}

/// Returns whether both are `None`, or both are the same slot of the same tenant.
fn is_same(a: Option<Owner>, b: Option<Owner>) -> bool
    ensures { result ≡ option_eq (λ x y. x.tenant == y.tenant && x.slot == y.slot) a b }
{
    a == b
}

/// Returns the first superblock whose owner in the table is wrong, if there is one.
pub(crate) fn wrong_owner(owners: &[Option<Owner>], table: &[Option<Owner>]) -> Option<u16>
    requires { length owners.now ≤ MAX_SUPERBLOCKS }
    ensures { result ≡ wrong_owner owners.now table.now }
{
    (0..owners.len() as u16).find(|superblock| is_wrong(owners, table, *superblock))
}

/// Returns whether the table has another owner for the superblock.
fn is_wrong(owners: &[Option<Owner>], table: &[Option<Owner>], superblock: u16) -> bool
    ensures { result ≡ is_wrong owners.now table.now superblock }
{
    match owners.get(usize::from(superblock)) {
        Some(owner) => match table.get(usize::from(superblock)) {
            Some(told) => !is_same(*told, *owner),
            None => true,
        },
        None => table.get(usize::from(superblock)).is_some(),
    }
}

/// Makes this slot of the tenant the owner of the superblock, if the superblock exists.
pub(crate) fn set_owner(owners: &mut [Option<Owner>], superblock: u16, tenant: u8, slot: u16)
    ensures { owners.new ≡ slice_set owners.old superblock (Some (owned_by tenant slot)) }
{
    let i = usize::from(superblock);
    if i < owners.len() {
        owners[i] = Some(Owner { tenant, slot });
    }
}

/// Removes the owner of each superblock that tenant `t` owns under this slot.
pub(crate) fn give_up_slot(owners: &mut [Option<Owner>], t: u32, slot: u32)
    ensures { owners.new ≡ map (given_up (is_owner t slot)) owners.old }
{
    for owner in owners.iter_mut() {
        *owner = without_slot(*owner, t, slot);
    }
}

/// Removes tenant `t` as the owner of all its superblocks.
pub(crate) fn give_up_all(owners: &mut [Option<Owner>], t: u32)
    ensures { owners.new ≡ map (given_up (is_of t)) owners.old }
{
    for owner in owners.iter_mut() {
        *owner = without_tenant(*owner, t);
    }
}

/// Returns the owner, or `None` if it is this slot of tenant `t`.
fn without_slot(owner: Option<Owner>, t: u32, slot: u32) -> Option<Owner>
    ensures { result ≡ given_up (is_owner t slot) owner }
{
    owner.filter(|owner| !(u32::from(owner.tenant) == t && u32::from(owner.slot) == slot))
}

/// Returns the owner, or `None` if it is tenant `t`.
fn without_tenant(owner: Option<Owner>, t: u32) -> Option<Owner>
    ensures { result ≡ given_up (is_of t) owner }
{
    owner.filter(|owner| u32::from(owner.tenant) != t)
}
