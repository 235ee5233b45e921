//! Answers to commands about bytes. An answer that keeps every promise is followed: it updates the state.

ghost use Rattle.std.specs.Prelude.{◌≡◌, ◌≤◌, ◌<◌, ◌&&◌, nat_le, ℕ, Some, IfOk, length};
ghost use Rattle.words_core.specs.declared.event.Event.TheVariants as On;
ghost use Rattle.words_core.specs.declared.event.Command.TheVariants as Command;
ghost use Rattle.words_core.specs.declared.reply.Body.TheVariants as Say;
ghost use Rattle.promise_core.specs.Bytes.{holder_of};
ghost use Rattle.promise_core.specs.State.{Known};
ghost use Rattle.known_holdings.specs.Holders.{shown_holder};
ghost use Rattle.reply_judge.specs.Judged.{IsVerdictFor, tenant_verdict, only_verdict};

use crate::tenant::Tenant;
use crate::verdict::Failure;
use arrayvec::ArrayVec;
use known_holdings::RangeHolder;
use model_core::limits::MAX_BYTES;
use promise_core::promise::Promise;

impl Tenant {
    /// Judges and follows an answer with these bytes. The command is a read of the `len` bytes that begin at `place`.
    pub(crate) fn read_bytes(&mut self, place: u32, len: u32, bytes: &[u8]) -> Result<(), Failure>
        ensures { (t : ℕ) (w : Known) → IsVerdictFor (On.Tenant t (Command.Read place len))
            (Say.Bytes (record { items = bytes.now })) w self.old self.new result }
    {
        let holder = self.holder_read(place, len, bytes)?;
        self.left.put(holder, place, bytes);
        Ok(())
    }

    /// Returns the holder of the range, if the read may be answered by these bytes, or else the promise that the answer breaks.
    fn holder_read(&self, place: u32, len: u32, bytes: &[u8]) -> Result<RangeHolder, Promise>
        ensures judged { (t : ℕ) (w : Known) → only_verdict result
            ≡ tenant_verdict (On.Tenant t (Command.Read place len)) (Say.Bytes (record { items = bytes.now })) w self.now }
        ensures is { IfOk result (λ holder. (holder_of self.now.has place len ≡ Some (shown_holder holder))
            × (length bytes.now ≡ len)) }
    {
        let Some(holder) = self.held.holder_of(place, len) else {
            return Err(Promise::Refusals);
        };
        if !is_length(len) {
            return Err(Promise::Refusals);
        }
        if bytes.len() != len as usize {
            return Err(Promise::Bytes);
        }
        if !self.left.may_read(&self.held, holder, place, bytes) {
            return Err(Promise::Bytes);
        }
        Ok(holder)
    }

    /// Judges and follows the answer that `count` bytes were written. The command is a write of `bytes` that begins at `place`.
    pub(crate) fn write_bytes(
        &mut self,
        place: u32,
        bytes: &ArrayVec<u8, MAX_BYTES>,
        count: u32,
    ) -> Result<(), Failure>
        ensures { (t : ℕ) (w : Known)
            → IsVerdictFor (On.Tenant t (Command.Write place bytes.now)) (Say.Written count) w self.old self.new result }
    {
        let holder = self.holder_written(place, bytes, count)?;
        self.left.put(holder, place, bytes.as_slice());
        Ok(())
    }

    /// Returns the holder of the range, if the write may be answered by `count`, or else the promise that the answer breaks.
    fn holder_written(
        &self,
        place: u32,
        bytes: &ArrayVec<u8, MAX_BYTES>,
        count: u32,
    ) -> Result<RangeHolder, Promise>
        ensures judged { (t : ℕ) (w : Known)
            → only_verdict result ≡ tenant_verdict (On.Tenant t (Command.Write place bytes.now)) (Say.Written count) w self.now }
        ensures is { IfOk result (λ holder. (holder_of self.now.has place count ≡ Some (shown_holder holder))
            × (length bytes.now.items ≡ count)) }
    {
        let Some(holder) = self.held.holder_of(place, bytes.len() as u32) else {
            return Err(Promise::Refusals);
        };
        if bytes.len() != count as usize {
            return Err(Promise::Bytes);
        }
        Ok(holder)
    }
}

/// Returns whether a read may request this many bytes, 1 to `MAX_BYTES`.
pub(crate) fn is_length(len: u32) -> bool
    ensures { result ≡ (nat_le 1 len && nat_le len MAX_BYTES) }
{
    1 <= len && len as usize <= MAX_BYTES
}
