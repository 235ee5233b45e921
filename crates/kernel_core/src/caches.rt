//! A tenant's commands on caches and objects.

ghost use Rattle.std.specs.Prelude.{◌≡◌, ◌<◌, IfOk, true, false};
ghost use Rattle.model_core.specs.Layouts.{is_pattern};
ghost use Rattle.machine_changes.specs.Changes.{Found};
ghost use Rattle.machine_changes.specs.Objects.{IsLiveObject};
ghost use Rattle.slab_core.specs.Taking.{IsTakenObject};
ghost use Rattle.words_core.specs.Requests.{body_of_answer, HasFewBytes, has_bytes};
ghost use Rattle.words_core.specs.declared.event.Event.TheVariants as On;
ghost use Rattle.words_core.specs.declared.event.Command.TheVariants as Command;
ghost use Rattle.words_core.specs.declared.reply.Body.TheVariants.{Destroyed, Object, Given, Reaped};
ghost use Rattle.kernel_core.specs.Steps.{Steps, StepsMachine, body_of};
ghost use Rattle.kernel_core.specs.Lending.{reply_for};

use crate::Kernel;
use layout_core::{Layout, LayoutRefusal, Pattern};
use slab_core::Taken;
use words_core::{Answer, Refusal};

impl Kernel {
    /// Makes a cache of objects of `size` bytes. An object begins at a multiple of `align` and is constructed with the pattern.
    ///
    /// Refuses with `BadSize`, then with `BadAlign`, then with `NoCacheSlot` if the tenant already has `MAX_CACHES` caches.
    // Always inlined: a call would return the answer in memory. Since all arms of `Kernel::run` share one answer, requests of
    // other kinds would then clear that memory and read their answers from there too.
    #[inline(always)]
    pub(crate) fn make_cache(
        &mut self,
        t: u8,
        size: u32,
        align: u32,
        pattern: &[u8],
    ) -> Result<Answer<'static>, Refusal>
        requires tenant { t < self.old.tenants }
        requires pattern { is_pattern pattern.now ≡ true }
        ensures steps { StepsMachine self.old t (Command.Cache size align (record { items = pattern.now })) self.new
            (body_of body_of_answer result) }
        ensures few { IfOk result (λ answer. HasFewBytes answer) }
        ensures bytes { IfOk result (λ answer. has_bytes answer ≡ false) }
    {
        let pattern = Pattern::new(pattern).unwrap();
        let layout = match Layout::of(size, align) {
            Ok(layout) => layout,
            Err(LayoutRefusal::BadSize) => return Err(Refusal::BadSize),
            Err(LayoutRefusal::BadAlign) => return Err(Refusal::BadAlign),
        };
        let Some(cache) = self.slabs.create(t, layout, pattern) else {
            return Err(Refusal::NoCacheSlot);
        };
        Ok(Answer::Cache {
            cache,
            chunk: layout.chunk(),
            order: layout.order(),
            objects: layout.count(),
            colours: layout.colours(),
        })
    }

    /// Destroys a cache, frees its slabs and returns the number of frames that they had.
    pub(crate) fn destroy(&mut self, t: u8, cache: u32) -> Result<u32, Refusal>
        requires { t < self.old.tenants }
        ensures { StepsMachine self.old t (Command.Destroy cache) self.new (body_of Destroyed result) }
    {
        Ok(
            self.slabs
                .destroy(&mut self.space, &mut self.buddy, t, cache)?,
        )
    }

    /// Takes an object of a cache and returns the place of its first byte.
    pub(crate) fn take(&mut self, t: u8, cache: u32) -> Result<u32, Refusal>
        requires { t < self.old.tenants }
        ensures steps { StepsMachine self.old t (Command.Take cache) self.new (body_of Object result) }
        ensures object { IfOk result (λ place. (o : Found) × IsLiveObject self.new.space self.new.slabs t cache place o) }
    {
        Ok(self.slabs.take(&mut self.space, &mut self.buddy, t, cache)?)
    }

    /// Does the same as [`Kernel::take`], and also returns what a caller needs to lend the object.
    // Always inlined: its result is then kept in registers, not written to memory and read again.
    #[inline(always)]
    pub(crate) fn take_object(&mut self, t: u8, cache: u32) -> Result<Taken, Refusal>
        requires { t < self.old.tenants }
        ensures steps { StepsMachine self.old t (Command.Take cache) self.new (body_of (λ taken. Object taken.place) result) }
        ensures object { IfOk result (IsTakenObject self.new.space self.new.slabs t cache) }
    {
        Ok(
            self.slabs
                .take_object(&mut self.space, &mut self.buddy, t, cache)?,
        )
    }

    /// Gives an object back to its cache.
    // Always inlined, as `Slabs::give` is, so the caller makes no call to give an object back, and the result stays in registers.
    #[inline(always)]
    pub(crate) fn give(&mut self, t: u8, cache: u32, place: u32) -> Result<(), Refusal>
        requires { t < self.old.tenants }
        ensures { StepsMachine self.old t (Command.Give cache place) self.new (body_of (λ done. Given) result) }
    {
        Ok(
            self.slabs
                .give(&mut self.space, &self.buddy, t, cache, place)?,
        )
    }

    /// Gives an object of a tenant back to its cache.
    ///
    /// Refuses with `NoTenant`, then with `NoCache` if the tenant has no such cache, then with `NotAnObject` if no live object of
    /// the cache begins at `place`.
    #[inline(always)]
    pub fn give_object(&mut self, tenant: u32, cache: u32, place: u32) -> Result<(), Refusal>
        ensures { Steps self.old (On.Tenant tenant (Command.Give cache place)) self.new
            (reply_for self.old tenant (body_of (λ done. Given) result)) }
    {
        let Some(t) = self.tenant(tenant) else {
            return Err(Refusal::NoTenant);
        };
        self.laws();
        self.give(t, cache, place)?;
        self.laws();
        Ok(())
    }

    /// Frees all empty slabs of the tenant and returns the number of frames that they had.
    pub(crate) fn reap(&mut self, t: u8) -> u32
        requires { t < self.old.tenants }
        ensures { StepsMachine self.old t Command.Reap self.new (Reaped result) }
    {
        self.slabs.reap(&mut self.space, &mut self.buddy, t)
    }
}
