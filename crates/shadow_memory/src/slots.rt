//! What was left in several slots.

ghost use Rattle.std.specs.Prelude.{◌≡◌, ◌^◌, ◌≤◌, ◌==◌, not, filter, option_map};
ghost use Rattle.std.specs.List.{AllByRecursion};
ghost use Rattle.model_core.specs.declared.limits.TheConstants.{MAX_ORDER};
ghost use Rattle.known_holdings.specs.Holders.{shown_cell};
ghost use Rattle.shadow_memory.specs.Left.{left_in, slot_places};
ghost use Rattle.shadow_memory.specs.Inside.{IsSlotWhole, AreKeptFrom, AreStepped, within};

use crate::change::Change;
use crate::kept::KeptByte;
use crate::slot::SlotBytes;
use known_holdings::LeftByte;
use model_core::limits::FRAME_BYTES;

/// Returns the number of places in a slot of `2^order` frames.
pub(crate) fn places_of(order: u8) -> u64
    requires { order ≤ MAX_ORDER }
    ensures value { result ≡ slot_places order }
    ensures most { result ≤ 2 ^ 20 }
{
    (1u64 << order) * u64::from(FRAME_BYTES)
}

/// Returns what was left at a place of these slots of `2^order` frames. Returns `None` if nothing was left there, or if the place
/// is in none of the slots.
pub(crate) fn left_in(slots: &[SlotBytes], order: u8, place: u32) -> Option<LeftByte>
    requires { order ≤ MAX_ORDER }
    ensures { option_map shown_cell result ≡ left_in order slots.now place }
{
    let places = places_of(order);
    let slot = place / FRAME_BYTES / (1u32 << order);
    for s in slots {
        if u32::from(s.slot()) == slot {
            let before = u64::from(s.slot()) * places;
            return s.at(u64::from(place).saturating_sub(before) as usize);
        }
    }
    None
}

/// Returns the stored bytes that begin at a place and lie in its slot. They may end before the slot does. Returns no bytes if the
/// place is in none of the slots.
pub(crate) fn kept_from(slots: &[SlotBytes], order: u8, place: u32) -> &[KeptByte]
    requires order { order ≤ MAX_ORDER }
    requires whole { AllByRecursion (IsSlotWhole order) slots.now }
    ensures { AreKeptFrom order slots.now place result.now }
{
    let places = places_of(order);
    let slot = place / FRAME_BYTES / (1u32 << order);
    for s in slots {
        if u32::from(s.slot()) == slot {
            let before = u64::from(s.slot()) * places;
            return s.kept_from(u64::from(place).saturating_sub(before) as usize);
        }
    }
    &[]
}

/// Changes what was left at the places in `begin..end` of these slots of `2^order` frames.
pub(crate) fn change_slots<C: Change>(
    slots: &mut [SlotBytes],
    order: u8,
    begin: u64,
    end: u64,
    change: &C,
)
    requires order { order ≤ MAX_ORDER }
    requires whole { AllByRecursion (IsSlotWhole order) slots.old }
    ensures { AreStepped order (within begin end (C.step change.now)) slots.old slots.new }
{
    let places = places_of(order);
    for slot in slots.iter_mut() {
        let first = u64::from(slot.slot()) * places;
        slot.change(first, begin, end, change);
    }
}

/// Removes the slot with this number, if there is one.
pub(crate) fn drop_slot(slots: &mut Vec<SlotBytes>, slot: u32)
    ensures { slots.new.items ≡ filter (λ s. not (s.slot == slot)) slots.old.items }
{
    slots.retain(|s| u32::from(s.slot()) != slot);
}
