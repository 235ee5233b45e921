//! The names of the promises.

ghost use Rattle.std.specs.Prelude.{◌≡◌, Some};
ghost use Rattle.promise_core.specs.Names.{name_of_promise};

use std::fmt;

/// A promise that every reply has to keep. If a reply breaks several promises, the first of them in the order below is reported.
#[derive(Clone, Copy, Debug, PartialEq, Eq)]
pub enum Promise {
    /// The reply has the right addressee and is a refusal or an answer to its event.
    Form,
    /// If the condition of a refusal holds, the reply is the first refusal whose condition holds. Otherwise `NoFrames` and
    /// `SlotBusy` are the only refusals that the reply may be.
    Refusals,
    /// No page block or object is refused for lack of frames while one can be allocated.
    Room,
    /// A take-back is refused with `SlotBusy` only if a frame of the slot is taken, or if an empty slab may be in the slot.
    Busy,
    /// A page block is aligned, lies in a held slot and shares no frame with a taken block.
    Blocks,
    /// An object is aligned, lies in a slab of its cache and overlaps no live object.
    Objects,
    /// The objects of a new cache fit into its slabs.
    Layout,
    /// A free reports the order of its block. A reap or a destroy reports a number of freed frames that can be that of empty
    /// slabs.
    Gives,
    /// A superblock has at most one owner, and replies report the owners correctly.
    Owners,
    /// A read returns the byte that is known to be at its place, or a fresh byte if none is known there. If the block was freed
    /// or the object given back since then, the byte is in doubt, and a read may return it or a fresh byte.
    Bytes,
    /// A report has the figures of the tenant's slots, page blocks and objects.
    Report,
    /// The figures of a report stay valid until the tenant reaps, or a command changes its slots, page blocks, caches or objects.
    Still,
}

impl Promise {
    /// Returns the name of the promise, for example `Form`.
    pub fn name(&self) -> &'static str
        ensures { result.now ≡ name_of_promise self.now }
    {
        match self {
            Promise::Form => "Form",
            Promise::Refusals => "Refusals",
            Promise::Room => "Room",
            Promise::Busy => "Busy",
            Promise::Blocks => "Blocks",
            Promise::Objects => "Objects",
            Promise::Layout => "Layout",
            Promise::Gives => "Gives",
            Promise::Owners => "Owners",
            Promise::Bytes => "Bytes",
            Promise::Report => "Report",
            Promise::Still => "Still",
        }
    }
}

impl fmt::Display for Promise {
    ghost output = { λ promise. Some (name_of_promise promise) };

    fn fmt<W: fmt::Write>(&self, f: &mut fmt::Formatter<W>) -> fmt::Result {
        f.write_str(self.name())
    }
}
