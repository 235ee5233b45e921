//! The laws of the machine. The contracts of empty functions state them: a proof that needs a law calls the function.

ghost use Rattle.model_core.specs.Layouts.{LayoutsFit};
ghost use Rattle.model_core.specs.Room.{BlockIsPromised, AllocIsPromised, TakeIsPromised};
ghost use Rattle.model_core.specs.Laws.{ChoiceIsUntaken, ChoicesMeet, AllocReaps, TakeReaps, RefusalsStay, KeepsWellFormed, RunsWellFormed, TakenApart, TakenSound, AllocTakes, FreeReleases, GrowthTakes, ReapReleases, ObjectsApart, RecordsFree, ConstructedFirst, ConstructedWhenTaken};
ghost use Rattle.model_core.specs.ByteLaws.{AllocKeeps, FreeKeeps, TakeKeeps, GiveKeeps, BytesStay, RunsKeepBytes, WritesAlone, SlabsLeaveZeroes};

/// For each accepted size and alignment, at each colour offset, a slab has 1 to 256 objects. All begin at multiples of the
/// alignment and end within the slab. A chunk has at least 16 bytes and at least as many as an object. A slab has at most 8
/// frames. If the chunks are small, it has one frame, and the objects end before the frame's last 32 bytes.
pub fn layouts_fit()
    ensures { LayoutsFit }
{}

/// The block that a request gets is aligned, overlaps no taken block and lies in a held slot.
pub fn choice_is_untaken()
    ensures { ChoiceIsUntaken }
{}

/// Any two representations of the same held slots and taken blocks lead to the same choice.
pub fn choices_meet()
    ensures { ChoicesMeet }
{}

/// An alloc of at most a slot's order, and a take that needs a new slab, free empty slabs only on demand. If a free block is
/// large enough, no slab is freed. If none is large enough, but one would be after all empty slabs of all caches are freed, these
/// slabs are freed first. If none would be large enough even then, the step is refused. An alloc or take that is refused, for
/// whatever reason, leaves the machine unchanged.
pub fn reaps_by_need()
    ensures alloc { AllocReaps }
    ensures take { TakeReaps }
    ensures refused { RefusalsStay }
{}

/// Each operation that can be requested keeps a well formed machine well formed. So any list of such operations leads from the
/// empty machine to a well formed machine.
pub fn stays_well_formed()
    ensures step { KeepsWellFormed }
    ensures run { RunsWellFormed }
{}

/// The taken blocks of a well formed machine are sound. Each page block that is allocated or freed, each slab that is made, and
/// each slab that a reap frees adds or removes one taken block. So the laws of blocks determine the free blocks.
pub fn taken_is_sound()
    ensures sound { TakenSound }
    ensures alloc { AllocTakes }
    ensures free { FreeReleases }
    ensures growth { GrowthTakes }
    ensures reap { ReapReleases }
{}

/// In a well formed machine, no two taken blocks share a frame, and no two objects share a byte. The objects of a small slab lie
/// before the last 32 bytes of its frame.
pub fn objects_apart()
    ensures blocks { TakenApart }
    ensures objects { ObjectsApart }
    ensures records { RecordsFree }
{}

/// An object that has not been taken since its slab was made reads as its cache's pattern, after any operations in between. So
/// does an object at its first take, even if that take makes the slab: it is in constructed state (Bonwick).
pub fn constructed_first()
    ensures untaken { ConstructedFirst }
    ensures taken { ConstructedWhenTaken }
{}

/// No byte changes if a page block is allocated without freeing slabs, if a page block is freed, if an object is taken from an
/// existing slab, or if an object is given back. Over whole runs a place keeps its byte unless it is written, a slab is made or
/// freed there, or its slot is granted or taken away. If none of these happens, an object or page block that is allocated again
/// has the bytes that it had when it was freed. If a byte is in reach before and after an operation, it changes only if the
/// operation writes it. The places of a slab that is freed read as zero, if its slot stays held.
pub fn bytes_stay()
    ensures alloc { AllocKeeps }
    ensures free { FreeKeeps }
    ensures take { TakeKeeps }
    ensures give { GiveKeeps }
    ensures step { BytesStay }
    ensures run { RunsKeepBytes }
    ensures writes { WritesAlone }
    ensures slabs { SlabsLeaveZeroes }
{}

/// Suppose that in a well formed machine the number of taken frames, not counting those of empty slabs, is less than the number
/// of aligned blocks of some order in the held slots. Then a block of that order is found, if empty slabs are freed on demand. So
/// a page block of that order is not refused, and neither is an object of a cache whose slabs have that order. This holds
/// wherever the taken blocks lie.
pub fn block_is_promised()
    ensures block { BlockIsPromised }
    ensures alloc { AllocIsPromised }
    ensures take { TakeIsPromised }
{}
