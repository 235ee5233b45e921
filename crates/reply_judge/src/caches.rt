//! Answers to commands that make or destroy a cache, or reap the empty slabs of all caches. An answer that keeps every promise is
//! followed: it updates the state.

ghost use Rattle.std.specs.Prelude.{◌≡◌, ℕ, ◌+◌, ◌*◌, ◌%◌, ◌^◌, ◌≤◌, ◌<◌, ◌==◌, ◌&&◌, nat_lt, None, true, false, filter, is_none, slice_index_or};
ghost use Rattle.std.specs.List.{list_any};
ghost use Rattle.std.specs.Option.{option_map_or};
ghost use Rattle.model_core.specs.declared.limits.TheConstants.{MAX_CACHES};
ghost use Rattle.model_core.specs.Layouts.{is_size, is_alignment};
ghost use Rattle.arrayvec.specs.ArrayVec.{ArrayVec as Pattern};
ghost use Rattle.words_core.specs.declared.event.Event.TheVariants as On;
ghost use Rattle.words_core.specs.declared.event.Command.TheVariants as Command;
ghost use Rattle.words_core.specs.declared.reply.Body.TheVariants as Say;
ghost use Rattle.promise_core.specs.Holdings.{known_cache};
ghost use Rattle.promise_core.specs.State.{Known};
ghost use Rattle.promise_core.specs.Promises.{due, can_come_back, empty_frames};
ghost use Rattle.reply_judge.specs.Judged.{IsVerdictFor, known_at, tenant_verdict};
ghost use Rattle.reply_judge.specs.Seen.{state_of};

use crate::marks::{clear_mark, marks_of_used};
use crate::taken::{empty_frames, is_asked};
use crate::tenant::Tenant;
use crate::verdict::{Failure, Verdict, both, on_answer, on_still_answer};
use arrayvec::ArrayVec;
use known_holdings::{HeldCache, KnownLayout, is_marked};
use model_core::limits::{MAX_CACHES, MAX_PATTERN, MAX_SIZE};
use promise_core::promise::Promise;
use words_core::Refusal;

impl Tenant {
    /// Judges and follows an answer that reports a new cache with this number and this layout.
    pub(crate) fn add_cache(
        &mut self,
        number: u8,
        layout: KnownLayout,
        pattern: &ArrayVec<u8, MAX_PATTERN>,
    ) -> Result<(), Failure>
        ensures { (t : ℕ) (w : Known) → let l = layout in IsVerdictFor (On.Tenant t (Command.Cache l.size l.align pattern.now))
            (Say.Cache number l.chunk l.order l.count l.colours) w self.old self.new result }
    {
        self.judge_layout(number, &layout)?;
        self.held
            .make_cache(HeldCache::new(self.alloc, number, layout, pattern))?;
        self.last_report = None;
        Ok(())
    }

    /// Returns the verdict on an answer that reports a new cache with this number and this layout.
    fn judge_layout(&self, number: u8, layout: &KnownLayout) -> Verdict
        ensures { (t : ℕ) (p : Pattern ℕ) (w : Known) → let l = layout.now in result
            ≡ tenant_verdict (On.Tenant t (Command.Cache l.size l.align p)) (Say.Cache number l.chunk l.order l.count l.colours) w
            self.now }
    {
        match self.due_of_cache(layout.size, layout.align) {
            Some(_) => Err(Promise::Refusals),
            None => {
                let is_right = both(self.is_new_cache(number), layout.fits(self.left.order()));
                on_answer(None, Promise::Layout, is_right)
            }
        }
    }

    /// Returns whether the number is below the limit and no cache of the tenant has it.
    fn is_new_cache(&self, number: u8) -> bool
        ensures { result ≡ (nat_lt number MAX_CACHES && is_none (known_cache self.now.has number)) }
    {
        number < MAX_CACHES && self.held.cache(number.into()).is_none()
    }

    /// Returns the refusal that must come in reply to a request for a cache, if any.
    #[tactic(auto, unfolding(promise_core::specs::Promises::due))]
    pub(crate) fn due_of_cache(&self, size: u32, align: u32) -> Option<Refusal>
        ensures value { (t : ℕ) (p : Pattern ℕ) (w : Known)
            → result ≡ due (On.Tenant t (Command.Cache size align p)) (known_at self.now w) (state_of self.now) }
        ensures aligned { result ≡ None → is_alignment align ≡ true }
    {
        if !is_size(size) {
            Some(Refusal::BadSize)
        } else if !is_alignment(align) {
            Some(Refusal::BadAlign)
        } else if self.held.has_most_caches() {
            Some(Refusal::NoCacheSlot)
        } else {
            None
        }
    }

    /// Judges and follows an answer to a destroy of the cache with this number. The answer reports this many freed frames.
    pub(crate) fn drop_cache(&mut self, number: u32, frames: u32) -> Result<(), Failure>
        ensures { (t : ℕ) (w : Known)
            → IsVerdictFor (On.Tenant t (Command.Destroy number)) (Say.Destroyed frames) w self.old self.new result }
    {
        let due = self.due_of_destroy(number);
        let can_come = self.can_come_back(Some(number), frames);
        let is_still = self.are_frames_told(Some(number), frames);
        on_still_answer(due, Promise::Gives, can_come, is_still)?;
        self.held.destroy(number);
        self.left.destroy(number);
        clear_mark(&mut self.may_have_empty, number);
        self.last_report = None;
        Ok(())
    }

    /// Returns the refusal that must come in reply to a destroy, if any.
    #[tactic(auto, unfolding(promise_core::specs::Promises::due))]
    pub(crate) fn due_of_destroy(&self, number: u32) -> Option<Refusal>
        ensures { (t : ℕ) (w : Known)
            → result ≡ due (On.Tenant t (Command.Destroy number)) (known_at self.now w) (state_of self.now) }
    {
        match self.held.cache(number) {
            Some(cache) if cache.is_in_use() => Some(Refusal::CacheInUse),
            Some(_) => None,
            None => Some(Refusal::NoCache),
        }
    }

    /// Judges and follows an answer to a reap. The answer reports this many freed frames.
    pub(crate) fn drop_empty_slabs(&mut self, frames: u32) -> Result<(), Failure>
        ensures { (t : ℕ) (w : Known) → IsVerdictFor (On.Tenant t Command.Reap) (Say.Reaped frames) w self.old self.new result }
    {
        let can_come = self.can_come_back(None, frames);
        let is_still = self.are_frames_told(None, frames);
        on_still_answer(None, Promise::Gives, can_come, is_still)?;
        let used = marks_of_used(&self.held);
        self.left.reap(&self.held);
        self.may_have_empty = used;
        self.last_report = None;
        Ok(())
    }

    /// Returns whether this many frames can come from empty slabs of the cache `only`, or of all caches if `only` is `None`.
    fn can_come_back(&self, only: Option<u32>, frames: u32) -> bool
        ensures { result ≡ can_come_back self.now.left.order
            (filter (λ c. option_map_or (λ number. c.number == number) only true) self.now.has.caches) frames
            (state_of self.now) }
    {
        frames == 0
            || (u128::from(frames) <= self.held.count_vacant(self.left.order(), 0)
                && some_may_have(self.held.caches(), &self.may_have_empty, only, frames))
    }

    /// Returns whether the last report has this many frames in empty slabs of the cache `only`, or of all caches if `only` is
    /// `None`. Returns true if no report is valid.
    fn are_frames_told(&self, only: Option<u32>, frames: u32) -> bool
        ensures { result ≡ option_map_or (λ r. frames
            == empty_frames (λ n. option_map_or (λ number. n == number) only true) self.now.has r) self.now.last_report true }
    {
        match &self.last_report {
            Some(report) => u64::from(frames) == empty_frames(&self.held, report, only),
            None => true,
        }
    }
}

/// Returns whether objects may have this size.
fn is_size(size: u32) -> bool
    ensures { result ≡ is_size size }
{
    1 <= size && size <= MAX_SIZE
}

/// Returns whether objects may have this alignment.
fn is_alignment(align: u32) -> bool
    ensures { result ≡ is_alignment align }
{
    matches!(align, 8 | 16 | 32 | 64 | 128 | 256)
}

/// Returns whether the cache `only`, or some cache if `only` is `None`, may have empty slabs with this many frames.
fn some_may_have(
    caches: &[HeldCache],
    may_have_empty: &[bool],
    only: Option<u32>,
    frames: u32,
) -> bool
    ensures { result ≡ list_any (λ c. slice_index_or may_have_empty.now c.number false && frames % 2 ^ c.order == 0)
        (filter (λ c. option_map_or (λ number. c.number == number) only true) caches.now) }
{
    caches
        .iter()
        .filter(|cache| is_asked(cache, only))
        .any(|cache| may_have(cache, may_have_empty, frames))
}

/// Returns whether the cache may have empty slabs with this many frames.
fn may_have(cache: &HeldCache, may_have_empty: &[bool], frames: u32) -> bool
    ensures { result ≡ (slice_index_or may_have_empty.now cache.now.number false && frames % 2 ^ cache.now.order == 0) }
{
    is_marked(may_have_empty, cache.number()) && frames % (1u32 << cache.order()) == 0
}
