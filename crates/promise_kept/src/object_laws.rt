//! The private machine's reply to `take`, `give`, `destroy` and `reap` keeps every promise. What is known after the reply is true
//! of the machine after the command. Each law is the contract of an empty function. A proof that needs the law calls the
//! function.

ghost use Rattle.promise_kept.specs.Laws.{TakeIsKept, GiveIsKept, DestroyIsKept, ReapIsKept};

/// The reply to `take` keeps the promises, if slots have at least 8 frames, the size of the largest slab. If a block for a new
/// slab is found only after all empty slabs are freed, the `take` frees them.
pub fn take_is_kept()
    ensures { TakeIsKept }
{}

/// The reply to `give` keeps the promises.
pub fn give_is_kept()
    ensures { GiveIsKept }
{}

/// The reply to `destroy` keeps the promises.
pub fn destroy_is_kept()
    ensures { DestroyIsKept }
{}

/// The reply to `reap` keeps the promises.
pub fn reap_is_kept()
    ensures { ReapIsKept }
{}
