//! Laws that follow from the promises alone, for every program whose replies keep them. Each law is the contract of an empty
//! function. Code calls this function if its proof needs the law.

ghost use Rattle.promise_core.specs.Laws.{LiveApart, LeftInHeld, Confined, RefusedForCause, TakeRefusedForCause, UseAnswerable};

/// After allowed replies, the page blocks of a tenant and the slabs of its live objects are aligned, lie in slots that it
/// holds, and share no frame.
pub fn live_apart()
    ensures { LiveApart }
{}

/// After allowed replies, bytes are known only at places in slots that the tenant holds. So no byte is known of a
/// slot that was taken back, and a checker can forget the slot's bytes.
pub fn left_in_held()
    ensures { LeftInHeld }
{}

/// After allowed replies, each byte in an allowed reply to a read is zero, a byte of some pattern that the tenant gave, or a
/// byte that it wrote at that place since the slot was granted. The promise `Bytes` is stricter: see its definition.
pub fn confined()
    ensures { Confined }
{}

/// In every state, if an existing tenant allocates a block of at most a slot's order, either some frame or the refusal `NoFrames`
/// is an allowed reply, but never both. So its `alloc` has an allowed reply after any allowed replies.
pub fn refused_for_cause()
    ensures { RefusedForCause }
{}

/// After allowed replies, if a tenant takes an object of an existing cache, either some object or the refusal `NoFrames` is an
/// allowed reply, but never both. So its `take` has an allowed reply after any allowed replies.
pub fn take_refused_for_cause()
    ensures { TakeRefusedForCause }
{}

/// After any allowed replies, every `alloc`, `free`, `take`, `give`, `read` and `write` of a tenant has an allowed reply.
pub fn use_answerable()
    ensures { UseAnswerable }
{}
