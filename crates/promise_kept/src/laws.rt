//! The private machine's reply to `alloc`, `free`, `write`, `read`, `cache` and `report` keeps every promise. What is known after
//! the reply is true of the machine after the command. Each law is the contract of an empty function. A proof that needs the law
//! calls the function.

ghost use Rattle.promise_kept.specs.Laws.{AllocIsKept, FreeIsKept, WriteIsKept, ReadIsKept, CacheIsKept, ReportIsKept};

/// The reply to `alloc` keeps the promises. If a block is found only after all empty slabs are freed, the `alloc` frees them.
pub fn alloc_is_kept()
    ensures { AllocIsKept }
{}

/// The reply to `free` keeps the promises.
pub fn free_is_kept()
    ensures { FreeIsKept }
{}

/// The reply to `write` keeps the promises.
pub fn write_is_kept()
    ensures { WriteIsKept }
{}

/// The reply to `read` keeps the promises.
pub fn read_is_kept()
    ensures { ReadIsKept }
{}

/// The reply to `cache` keeps the promises, if slots have at least 8 frames, the size of the largest slab.
pub fn cache_is_kept()
    ensures { CacheIsKept }
{}

/// The reply to `report` keeps the promises.
pub fn report_is_kept()
    ensures { ReportIsKept }
{}
