//! The world of the definitions keeps the promises at each event, and so in every run from the opening world. Each law is the
//! contract of an empty function. A proof that needs the law calls the function.

ghost use Rattle.promise_kept.specs.WorldLaws.{
  GrantIsKept,
  TakeBackIsKept,
  ResetIsKept,
  MoveIsKept,
  PoolIsKept,
  EventIsKept,
  StrangerChangesNothing,
  KeepsPromises,
  TraceKeepsPromises,
};

/// The reply to `admin grant` keeps the promises.
pub fn grant_is_kept()
    ensures { GrantIsKept }
{}

/// The reply to `admin takeback` keeps the promises.
pub fn take_back_is_kept()
    ensures { TakeBackIsKept }
{}

/// The reply to `admin reset` keeps the promises.
pub fn reset_is_kept()
    ensures { ResetIsKept }
{}

/// The reply to `admin move` keeps the promises.
pub fn move_is_kept()
    ensures { MoveIsKept }
{}

/// The reply to `admin pool` keeps the promises.
pub fn pool_is_kept()
    ensures { PoolIsKept }
{}

/// The reply to any event keeps the promises. Slots must have at least 8 frames, and a new cache must have a pattern of 1 to 16
/// bytes.
pub fn event_is_kept()
    ensures { EventIsKept }
{}

/// If an event names a tenant that does not exist, the reply is allowed, and neither the world nor what is known changes.
pub fn stranger_changes_nothing()
    ensures { StrangerChangesNothing }
{}

/// In every run from the opening world, each reply is allowed, and what is known after the run is true of the world after it. The
/// events are those of a trace, or any events whose new caches have patterns of 1 to 16 bytes. Slots must have at least 8 frames,
/// and RAM must have at most 2^32 places, as in every machine that boots.
pub fn keeps_promises()
    ensures kept { KeepsPromises }
    ensures by_traces { TraceKeepsPromises }
{}
