//! The laws of blocks, which follow from the definitions of taken and free blocks alone. The contracts of empty functions state
//! them: a proof that needs a law calls the function.

ghost use Rattle.model_core.specs.BlockLaws.{EachFrameInOne, Splits, Joins, ReservedIsUntaken, ReserveStaysSound, ReleaseStaysSound, GrantStaysSound, TakeBackStaysSound, FreeIsTested, ChoiceIsFound, OneChoice};

/// Each frame that lies in a held slot and is not taken is in exactly one free block. A reservation removes the free block that
/// it splits, and the upper half of each split becomes a free block. If the taken blocks are sound, a released block is joined
/// with its buddy as long as the buddy is free, up to a whole slot (Knuth, TAOCP 1, 2.5, algorithms R and S). All other free
/// blocks stay free.
pub fn splits_and_joins()
    ensures one_block { EachFrameInOne }
    ensures splits { Splits }
    ensures joins { Joins }
{}

/// A block that is reserved out of a free block is aligned, overlaps no taken block and lies in a held slot.
pub fn reserved_is_untaken()
    ensures { ReservedIsUntaken }
{}

/// A reservation out of a free block, a release, a grant, and a take-back of slots without taken frames keep
/// the taken blocks aligned, in held slots and apart.
pub fn taken_stays_sound()
    ensures reserve { ReserveStaysSound }
    ensures release { ReleaseStaysSound }
    ensures grant { GrantStaysSound }
    ensures take_back { TakeBackStaysSound }
{}

/// `is_free` decides whether a block is free. Given a bound above every held slot, `choose` returns the block that a
/// request is served from, or `None` if no free block is large enough. There is at most one such block.
pub fn choice_is_found()
    ensures tested { FreeIsTested }
    ensures found { ChoiceIsFound }
    ensures only { OneChoice }
{}
