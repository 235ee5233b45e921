//! The laws of whole runs. Each law is the contract of an empty function. Code calls this function if its proof needs the law.

ghost use Rattle.world_core.specs.Laws.{OwnRun, MoreCaches, OwnLines, SameReplies, SameTexts, SameLines, AllShown, OwnShown, OwnLinesShown, EndedAllButTail, EndedLinesStay, ShownStays};
ghost use Rattle.world_core.specs.Reached.{EntriesAreOperations, OwnListsAreRequests, ReachedWellFormed, ReachedSound, ReachedFreeOnce, ReachedSplits, ReachedJoins, ReachedApart, ReachedRecordsFree, ReachedConstructed, ReachedConstructedWhenTaken, ReachedBlock, ReachedObject, NobodyStarves};
ghost use Rattle.world_core.specs.SideBySide.{EventsCommute, SameWorldInAnyOrder, SameRepliesInAnyOrder, BegunAsEnded};

/// In every run from the opening world, a tenant gets exactly the replies of a private machine that runs only the tenant's own
/// commands, grants, take-backs and resets. At the end of the run, the tenant's machine is equal to this private machine.
pub fn own_run()
    ensures { OwnRun }
{}

/// In the output of any trace, the lines of a tenant are the texts of its private machine's replies to the
/// tenant's own list of that trace. The world may have at most 2^64 tenants.
pub fn own_lines()
    ensures { OwnLines }
{}

/// If a tenant's own lists are equal in two runs, it gets the same replies, with the same texts, in both. If the runs are runs of
/// traces in worlds of at most 2^64 tenants, it gets the same lines of output. Both worlds have the same order of superblocks and
/// the same limit on caches. They may differ in the numbers of superblocks and tenants, and other tenants may do anything.
pub fn non_interference()
    ensures replies { SameReplies }
    ensures texts { SameTexts }
    ensures lines { SameLines }
{}

/// If no tenant is named, the whole output of a trace is shown. If one of at most 2^64 tenants is named, exactly this tenant's
/// lines of the output are shown, each with a line feed at its end. If what is shown is cut at its line feeds, the lines are the
/// same again.
pub fn own_shown()
    ensures all { AllShown }
    ensures bytes { OwnShown }
    ensures lines { OwnLinesShown }
{}

/// In any prefix of a trace, the lines that end in LF are the first lines of the whole trace. The output shown for them is a
/// prefix of the output shown for the whole trace. What follows these lines in the prefix has no LF.
pub fn shown_stays()
    ensures ended { EndedAllButTail }
    ensures lines { EndedLinesStay }
    ensures shown { ShownStays }
{}

/// For every private run, there is a run of the model's operations that leaves the same machine. So the laws of reached machines
/// hold for every tenant's machine.
pub fn entries_are_operations()
    ensures { EntriesAreOperations }
{}

/// If no cache is refused for lack of a number, a private run has the same replies and leaves the same machine under any greater
/// limit on caches.
pub fn more_caches()
    ensures { MoreCaches }
{}

/// In a tenant's own list of any trace, each cache is made with a pattern of 1 to 16 bytes. So the laws of reached machines hold
/// for every tenant's machine after every trace.
pub fn own_lists_are_requests()
    ensures { OwnListsAreRequests }
{}

/// Suppose that each new cache in a private run has a pattern of 1 to 16 bytes. Then the machine after the run is well formed,
/// and its taken blocks, including those of slabs, are aligned, lie in held slots and share no frame. So the laws of blocks hold
/// for it: an `alloc` splits the chosen block, after empty slabs are freed if it needs them, and a `free` joins buddies. After
/// any private run, each frame that is held and not taken is in exactly one free block.
pub fn reached_machines()
    ensures well_formed { ReachedWellFormed }
    ensures sound { ReachedSound }
    ensures free_once { ReachedFreeOnce }
    ensures splits { ReachedSplits }
    ensures joins { ReachedJoins }
{}

/// Suppose that each new cache in a private run has a pattern of 1 to 16 bytes. Then the objects of the machine after the run
/// share no byte. An object of a small slab lies in the slab's frame, below the control record. An object that was not taken
/// since its slab was made is in its constructed state. So is an object that a `take` has just returned for the first time since
/// its slab was made.
pub fn reached_objects()
    ensures apart { ReachedApart }
    ensures records { ReachedRecordsFree }
    ensures constructed { ReachedConstructed }
    ensures taken { ReachedConstructedWhenTaken }
{}

/// Suppose that a tenant's slots have more aligned blocks of some order than the tenant has taken frames outside empty slabs. If
/// each new cache of its private run has a pattern of 1 to 16 bytes, its private machine refuses neither a block of that order
/// nor an object of a cache whose slabs have that order. After any trace, the world does not refuse the tenant a block of that
/// order.
pub fn nobody_starves()
    ensures block { ReachedBlock }
    ensures object { ReachedObject }
    ensures world { NobodyStarves }
{}

/// An event needs the lock of the tenant that it names, and a command of the administrator also needs the administrator's lock. Two
/// events without a common lock leave the same world and get the same replies in either order. If two lists have, for each lock,
/// the same events that need it in the same order, they leave the same world from any world, and under each lock the same events
/// get the same replies. If each call holds its locks from its beginning to its end, the order in which the calls begin and the
/// order in which they end are two such lists.
pub fn side_by_side()
    ensures commute { EventsCommute }
    ensures world { SameWorldInAnyOrder }
    ensures replies { SameRepliesInAnyOrder }
    ensures overlaps { BegunAsEnded }
{}
