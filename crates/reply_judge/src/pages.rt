//! Answers to commands about page blocks. An answer that keeps every promise is followed: it updates the state.

ghost use Rattle.std.specs.Prelude.{◌≡◌, ◌≤◌, ◌<◌, ℕ, IfOk};
ghost use Rattle.model_core.specs.Blocks.{block};
ghost use Rattle.words_core.specs.declared.event.Event.TheVariants as On;
ghost use Rattle.words_core.specs.declared.event.Command.TheVariants as Command;
ghost use Rattle.words_core.specs.declared.reply.Body.TheVariants as Say;
ghost use Rattle.promise_core.specs.State.{Known};
ghost use Rattle.reply_judge.specs.Judged.{IsVerdictFor, tenant_verdict, only_verdict};

use crate::tenant::{Tenant, forget};
use crate::verdict::Failure;
use known_holdings::FrameBlock;
use promise_core::promise::Promise;

impl Tenant {
    /// Judges and follows an answer to an alloc of `2^k` frames. The answer reports the block at the frame.
    pub(crate) fn add_block(&mut self, k: u32, frame: u32) -> Result<(), Failure>
        ensures { (t : ℕ) (w : Known) → IsVerdictFor (On.Tenant t (Command.Alloc k)) (Say.Frame frame) w self.old self.new result }
    {
        let block = self.new_block(k, frame)?;
        self.held.alloc(block)?;
        self.left.alloc(&block);
        forget(&mut self.last_report);
        Ok(())
    }

    /// Returns the block of `2^k` frames at the frame, if it may be allocated, or else the promise that the answer breaks.
    fn new_block(&self, k: u32, frame: u32) -> Result<FrameBlock, Promise>
        ensures judged { (t : ℕ) (w : Known)
            → only_verdict result ≡ tenant_verdict (On.Tenant t (Command.Alloc k)) (Say.Frame frame) w self.now }
        ensures is { IfOk result (λ b. b ≡ block frame k) }
    {
        let order = self.left.order();
        if k > u32::from(order) {
            return Err(Promise::Refusals);
        }
        let block = FrameBlock::new(frame, k as u8);
        if !self.held.can_stand(order, &block) {
            return Err(Promise::Blocks);
        }
        Ok(block)
    }

    /// Judges and follows an answer to a free of the page block at the frame. The answer reports a block of `2^k` frames.
    pub(crate) fn drop_block(&mut self, frame: u32, k: u8) -> Result<(), Failure>
        ensures { (t : ℕ) (w : Known) → IsVerdictFor (On.Tenant t (Command.Free frame)) (Say.Freed k) w self.old self.new result }
    {
        let block = self.live_block(frame, k)?;
        self.held.free(frame);
        self.left.free(&block);
        forget(&mut self.last_report);
        Ok(())
    }

    /// Returns the live page block at the frame, if it has `2^k` frames, or else the promise that the answer breaks.
    fn live_block(&self, frame: u32, k: u8) -> Result<FrameBlock, Promise>
        ensures judged { (t : ℕ) (w : Known)
            → only_verdict result ≡ tenant_verdict (On.Tenant t (Command.Free frame)) (Say.Freed k) w self.now }
        ensures is { IfOk result (λ b. b ≡ block frame k) }
    {
        let Some(block) = self.held.page_at(frame) else {
            return Err(Promise::Refusals);
        };
        if block.order() != k {
            return Err(Promise::Gives);
        }
        Ok(*block)
    }
}
