//! Runs a check on a new machine.

ghost use Rattle.std.specs.Prelude.{◌≡◌, ℕ, List, true, false, Some, Ok, IfOk, ◌⊎◌};
ghost use Rattle.model_core.specs.Booting.{is_bootable};
ghost use Rattle.promise_core.specs.State.{Known};
ghost use Rattle.reply_judge.specs.KnownMachine.{ShowsKnown};
ghost use Rattle.trace_check.specs.declared.finding.Breach.{Breach};
ghost use Rattle.trace_check.specs.Checking.{ComesToAdd, HasRead, IsEndedBy, IsKeptAtEnd, ShowsFinding};
ghost use Rattle.trace_check.specs.Reading.{HasGiven, WhateverFollows, readings_of};
ghost use Rattle.trace_check.specs.Reasons.{IsNoted};
ghost use Rattle.partcheck.specs.Checked.{IsFindingOf, opening_of};

use model_core::config::Config;
use reply_judge::KnownMachine;
use std::alloc::Global;
use std::mem;
use streams::Feed;
use trace_check::{Finding, LineReader, Shown, Unchecked, check, laws};

/// Checks the replies to a trace on a machine of these sizes, in which no superblock is granted at first. Returns `Err` if the
/// trace or the replies cannot be read, or if memory runs out. If a reply is not allowed, `shown` has the line and the reply, as
/// after [`check`], and `shown.reason` says why the reply breaks its promise, if that is worked out for this promise. If the line
/// has no event, `shown.reason` is unchanged.
pub fn run<T: Feed, R: Feed>(
    alloc: Global,
    config: Config,
    trace: &mut LineReader<T>,
    replies: &mut LineReader<R>,
    shown: &mut Shown,
) -> Result<Finding, Unchecked>
    requires bootable { is_bootable config ≡ true }
    requires trace_fine { trace.old.failed ≡ false }
    requires replies_fine { replies.old.failed ≡ false }
    // `trace_text` is the text that was read of the trace, and `reply_text` is the text that was read of the replies. All texts that begin
    // with these have this finding, and it is true of them. If it is a breach, `shown` has the line and the reply of the breach,
    // and the reason of the breach is noted, by what is known after the earlier lines and their replies.
    ensures found { (trace_text : List ℕ) × (reply_text : List ℕ) × HasGiven trace.old trace.new trace_text × HasGiven replies.old replies.new reply_text
        × IfOk result (λ finding. WhateverFollows trace.new replies.new trace_text reply_text (IsFindingOf config finding))
        × IfOk result (λ finding. ShowsFinding (opening_of config) finding trace_text reply_text shown.new
        (λ breach line reply now. IsNoted breach.promise line reply now shown.old.reason shown.new.reason)) }
    ensures kept { IfOk result (λ finding. IsKeptAtEnd finding trace.new replies.new) }
    // If the texts of the trace and of the replies are known, they have this finding, and it is true of them.
    ensures known { (trace_text reply_text : List ℕ) → trace.old.left ≡ Some trace_text → replies.old.left ≡ Some reply_text
        → IfOk result (λ finding. IsFindingOf config finding trace_text reply_text) }
    // Memory runs out only before anything is read, or at a reply that adds something to what is known. This reply and all
    // replies before it are allowed.
    ensures end { IsEndedBy result trace.new.failed replies.new.failed (((trace.new ≡ trace.old) × (replies.new ≡ replies.old))
        ⊎ ((trace_text : List ℕ) × (reply_text : List ℕ) × HasGiven trace.old trace.new trace_text × HasGiven replies.old replies.new reply_text
        × WhateverFollows trace.new replies.new trace_text reply_text
        (λ trace replies. ComesToAdd (readings_of trace) replies (opening_of config)))) }
{
    laws::kept_is_allowed();
    laws::broken_is_not_allowed();
    let mut machine = KnownMachine::new(
        alloc,
        config.order as u8,
        config.superblocks as u16,
        config.tenants as u8,
    )?;
    let found = check(&mut machine, trace, replies, shown);
    note_reason(&found, &machine, shown);
    // The machine is not dropped: the process ends soon, and the system frees its memory faster than drops would.
    mem::forget(machine);
    found
}

/// After a breach, looks for the reason why the shown reply breaks its promise.
fn note_reason(found: &Result<Finding, Unchecked>, machine: &KnownMachine, shown: &mut Shown)
    ensures line { shown.new.line ≡ shown.old.line }
    ensures reply { shown.new.reply ≡ shown.old.reply }
    ensures reason { (breach : Breach) (trace_text reply_text : List ℕ) (w : Known) → found.now ≡ Ok (Finding.Broken breach)
        → HasRead trace_text reply_text shown.old → ShowsKnown machine.now w
        → IsNoted breach.promise trace_text reply_text w shown.old.reason shown.new.reason }
{
    let Ok(Finding::Broken(breach)) = found else {
        return;
    };
    shown.look_for_reason(machine, breach.promise);
}
