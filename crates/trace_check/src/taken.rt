//! Finds a live page block that overlaps the page block of a reply.

ghost use Rattle.std.specs.Prelude.{◌≡◌, ℕ, IfSome, option_map};
ghost use Rattle.model_core.specs.Blocks.{block};
ghost use Rattle.words_core.specs.Requests.{body_of_answer};
ghost use Rattle.words_core.specs.declared.event.Command.{Command};
ghost use Rattle.words_core.specs.declared.event.Event.{Event};
ghost use Rattle.words_core.specs.declared.reply.Body.{Body};
ghost use Rattle.promise_core.specs.State.{Known};
ghost use Rattle.reply_judge.specs.KnownMachine.{ShowsKnown};
ghost use Rattle.trace_check.specs.Finding.{page_in_way};
ghost use Rattle.trace_check.specs.Taken.{IsFirstShared};

use known_holdings::FrameBlock;
use model_core::limits::MAX_ORDER;
use reply_judge::KnownMachine;
use words_core::{Answer, Command, Event};

/// A frame of a reply's page block that is already in a live page block of the tenant.
#[derive(Clone, Copy, Debug)]
pub struct TakenFrame {
    /// The first frame that both blocks share.
    pub frame: u32,
    /// The live page block.
    pub page: FrameBlock,
}

/// Returns the tenant's first live page block that shares a frame with the page block of this answer, and the first frame that
/// both share. Returns `None` if there is no such live block, or if `answer` does not allocate a page block for `event`.
pub fn taken_frame(machine: &KnownMachine, event: &Event, answer: &Answer<'_>) -> Option<TakenFrame>
    ensures page { (w : Known) → ShowsKnown machine.now w
        → option_map (λ taken. taken.page) result ≡ page_in_way w event.now (body_of_answer answer.now) }
    // The frame is the first one that both blocks share.
    ensures frame { (t k f : ℕ) → event.now ≡ Event.Tenant t (Command.Alloc k) → body_of_answer answer.now ≡ Body.Frame f
        → IfSome result (λ taken. IsFirstShared (block f k) taken.page taken.frame) }
{
    match (event, answer) {
        (Event::Tenant(tenant, Command::Alloc { order }), Answer::Frame(frame)) => {
            if *order > u32::from(MAX_ORDER) {
                return None;
            }
            let page = machine.page_over(*tenant, &FrameBlock::new(*frame, *order as u8))?;
            Some(TakenFrame {
                frame: page.first().max(*frame),
                page,
            })
        }
        _ => None,
    }
}
