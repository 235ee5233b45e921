//! The kernel, and the functions that run events, requests and the administrator's commands.

ghost use Rattle.std.specs.Prelude.{◌≡◌, ◌↔◌, ℕ, ◌*◌, ◌^◌, ◌<◌, ◌≤◌, IfOk, IfSome, true, false};
ghost use Rattle.model_core.specs.declared.limits.TheConstants.{MAX_SUPERBLOCKS, WIDE_ORDER, WIDE_SUPERBLOCKS, WIDE_TENANTS, WIDE_FRAMES};
ghost use Rattle.words_core.specs.declared.event.Command.TheVariants as Command;
ghost use Rattle.world_core.specs.Limits.{cache_limit};
ghost use Rattle.world_core.specs.World.{World, opening_world, world_step};

use buddy_core::Buddy;
use model_core::config::Config;
use slab_core::Slabs;
use space_core::Space;
use std::alloc::{AllocError, Global};
use std::marker::Model;
use thiserror::Error;
use words_core::{Addressee, AdminCommand, Answer, Body, Event, Refusal, Reply, Request};

/// The reason why a kernel did not boot.
#[derive(Debug, Drop, Error)]
pub enum BootError {
    /// A number in the configuration is out of range. Nothing was allocated.
    #[error("a number of the configuration is out of range")]
    BadConfig,
    /// An allocation was refused.
    #[error("not enough memory")]
    Memory,
}

/// A machine shared by tenants: its memory with the pool, and the buddy systems and caches of all tenants. [`Kernel::step`]
/// runs events on it.
///
/// The memory and the buddy systems have the same superblock in each slot of each tenant. Each slab is a taken block of the
/// tenant that has the slab's cache.
#[derive(Debug, Drop)]
pub struct Kernel {
    pub(crate) space: Space,
    pub(crate) buddy: Buddy,
    pub(crate) slabs: Slabs,
}

impl Model for Kernel {
    ghost use Rattle.machine_changes.specs.Shows.{Agree};
    ghost use Rattle.kernel_core.specs.Content.{KernelContent, content_of};

    ghost Value = { KernelContent };

    ghost view = { λ k. content_of k.space k.buddy k.slabs };

    ghost invariant = { λ k. Agree k.space k.buddy k.slabs };
}

impl Kernel {
    ghost use Rattle.std.specs.Prelude.{MatchOption};
    ghost use Rattle.model_core.specs.Booting.{is_bootable, is_wide};
    ghost use Rattle.world_core.specs.OwnList.{is_refused};
    ghost use Rattle.kernel_core.specs.Content.{SameSizes, MarksFollow, opening_content, Keeps};
    ghost use Rattle.space_core.specs.Laws.{SpareStays};
    ghost use Rattle.kernel_core.specs.Records.{RecordsStand};
    ghost use Rattle.kernel_core.specs.Shows.{Shows};
    ghost use Rattle.world_core.specs.Locks.{is_named};
    ghost use Rattle.kernel_core.specs.Steps.{FitsReply, HasPattern, Steps};
    ghost use Rattle.words_core.specs.Requests.{command_of, reply_to, HasFewBytes, IsAskable, asks_bytes, has_bytes};
    ghost use Rattle.words_core.specs.declared.event.AdminCommand.TheVariants as AdminCommand;
    ghost use Rattle.words_core.specs.declared.reply.Addressee.TheVariants.{Admin};
    ghost use Rattle.kernel_core.specs.Asking.{RestsRequested, RestsRequestedKnown, RestsStepped};
    ghost use Rattle.std.specs.Borrow.{sem};

    /// Boots a machine of these sizes. All bytes of its memory are 0, and no superblock has an owner.
    ///
    /// Returns `BadConfig` if a number in the configuration is out of range, before anything is allocated. Returns `Memory` only
    /// if an allocation was refused. No later call allocates.
    pub fn boot(alloc: Global, config: Config) -> Result<Kernel, BootError>
        ensures config { (result ≡ Err BootError.BadConfig) ↔ (is_bootable config ≡ false) }
        ensures parts { IfOk result (λ k. k ≡ opening_content config.order config.superblocks config.tenants) }
        ensures shows { IfOk result (λ k. Shows k (opening_world config.superblocks config.tenants)) }
    {
        if !config.is_bootable() {
            return Err(BootError::BadConfig);
        }
        Kernel::boot_wide(alloc, config)
    }

    /// Does what [`Kernel::boot`] does, also for larger machines: of up to 4,096 superblocks of orders up to 10, for up to 255
    /// tenants, with up to 4 GiB of memory.
    ///
    /// Returns `BadConfig` if [`Config::is_wide`] is false of the configuration, before anything is allocated. Returns `Memory`
    /// only if an allocation was refused. No later call allocates.
    pub fn boot_wide(alloc: Global, config: Config) -> Result<Kernel, BootError>
        ensures config { (result ≡ Err BootError.BadConfig) ↔ (is_wide config ≡ false) }
        ensures parts { IfOk result (λ k. k ≡ opening_content config.order config.superblocks config.tenants) }
        ensures shows { IfOk result (λ k. Shows k (opening_world config.superblocks config.tenants)) }
    {
        if !config.is_wide() {
            return Err(BootError::BadConfig);
        }
        let order = config.order as u8;
        let superblocks = config.superblocks as u16;
        let tenants = config.tenants as u8;
        let Ok(kernel) = Kernel::new(alloc, order, superblocks, tenants) else {
            return Err(BootError::Memory);
        };
        kernel.laws();
        Ok(kernel)
    }

    /// Boots a machine whose sizes are within the limits.
    fn new(alloc: Global, order: u8, superblocks: u16, tenants: u8) -> Result<Kernel, AllocError>
        requires order { order ≤ WIDE_ORDER }
        requires superblocks { superblocks ≤ WIDE_SUPERBLOCKS }
        requires tenants { tenants ≤ WIDE_TENANTS }
        requires frames { superblocks * 2 ^ order ≤ WIDE_FRAMES }
        ensures { IfOk result (λ k. k ≡ opening_content order superblocks tenants) }
    {
        let space = Space::new(alloc, order, superblocks, tenants)?;
        let buddy = Buddy::new(alloc, order, superblocks, tenants)?;
        let slabs = Slabs::new(alloc, order, superblocks, tenants)?;
        Ok(Kernel {
            space,
            buddy,
            slabs,
        })
    }

    /// Runs one event and returns the reply. A refused event changes nothing.
    ///
    /// The pattern of a `cache` command must have at least one byte, as every pattern that `read_line` returns does. The event
    /// `pool` must go to a machine of at most 256 superblocks, as every machine is that [`Kernel::boot`] returns: a [`Reply`] can
    /// list no more. [`Kernel::owners`] lends the owners of any machine.
    pub fn step(&mut self, event: &Event) -> Reply
        requires pattern { HasPattern event.now }
        requires fits { FitsReply self.old event.now }
        ensures sizes { SameSizes self.old self.new }

        // The event is a step of each world that the kernel shows.
        ensures shows { (w : World) → Shows self.old w → Shows self.new (world_step cache_limit self.old.order event.now w).world }
        ensures reply { (w : World) → Shows self.old w → result ≡ (world_step cache_limit self.old.order event.now w).reply }

        ensures refused { is_refused result.body ≡ true → self.new ≡ self.old }

        // Every tenant that the event does not name keeps its slots with their superblocks, all its bytes, and its blocks, caches
        // and slabs.
        ensures others { (t : ℕ) → is_named t event.now ≡ false → Keeps self.old self.new t }

        // A superblock that lost its owner is marked, and one that got an owner is unmarked. A superblock without an owner keeps
        // its bytes.
        ensures marks { MarksFollow self.old.space self.new.space }
        ensures spare { SpareStays self.old.space self.new.space }

        // The last 32 bytes of each slab of small objects are the bitmap of its live objects.
        ensures records { RecordsStand self.new }
    {
        let reply = self.run_event(event);
        self.records_stand();
        reply
    }

    /// Runs one event and returns the reply.
    fn run_event(&mut self, event: &Event) -> Reply
        requires pattern { HasPattern event.now }
        requires fits { FitsReply self.old event.now }
        ensures { Steps self.old event.now self.new result }
    {
        match event {
            Event::Admin(command) => self.reply_to_admin(command),
            Event::Tenant(tenant, command) => match command.request() {
                Some(request) => self.reply_to(*tenant, request),
                None => self.report(*tenant),
            },
        }
    }

    /// Runs any command of a tenant except a report. The reply has its own copy of the bytes that were read.
    fn reply_to(&mut self, tenant: u32, request: Request<'_>) -> Reply
        requires { IsAskable request }
        ensures { Steps self.old (Event.Tenant tenant (command_of request.entry)) self.new result }
    {
        match self.ask(tenant, request) {
            Some((t, answer)) => Reply {
                addressee: Addressee::Tenant(t),
                body: answer.into_body(),
            },
            None => Reply {
                addressee: Addressee::Nobody,
                body: Body::Refused(Refusal::NoTenant),
            },
        }
    }

    /// Runs a command of the administrator. A reply with the table of owners has its own copy of the table.
    fn reply_to_admin(&mut self, command: &AdminCommand) -> Reply
        requires { FitsReply self.old (Event.Admin command.now) }
        ensures { Steps self.old (Event.Admin command.now) self.new result }
    {
        match self.administer(command) {
            Some(answer) => Reply {
                addressee: Addressee::Admin,
                body: answer.into_body(),
            },
            None => self.pool(),
        }
    }

    /// Runs any command of the administrator except `pool`. Does the same as [`Kernel::step`] with that event, but returns the
    /// answer to the administrator as a small value.
    ///
    /// Returns `None` and does nothing if the table of owners is requested. [`Kernel::owners`] lends that table, and
    /// [`Kernel::pool`] returns the reply with it.
    #[cold]
    #[inline(never)]
    pub fn administer(&mut self, command: &AdminCommand) -> Option<Answer<'static>>
        ensures steps { MatchOption result ((command.now ≡ AdminCommand.Pool) × (self.new ≡ self.old))
            (λ answer. Steps self.old (Event.Admin command.now) self.new (reply_to Admin answer)) }
        ensures few { IfSome result (λ answer. HasFewBytes answer) }
        ensures bytes { IfSome result (λ answer. has_bytes answer ≡ false) }
    {
        let result = match command {
            AdminCommand::Grant { tenant } => self.grant(*tenant),
            AdminCommand::TakeBack { tenant, slot } => self.take_back(*tenant, *slot),
            AdminCommand::Reset { tenant } => self.reset(*tenant),
            AdminCommand::Move { tenant, slot } => self.move_slot(*tenant, *slot),
            AdminCommand::Pool => return None,
        };
        self.parts_agree();
        Some(match result {
            Ok(answer) => answer,
            Err(refusal) => Answer::Refused(refusal),
        })
    }

    /// Runs any command of a tenant except a report. Does the same as [`Kernel::step`] with that event, but returns the tenant
    /// and its answer as a small value. The answer to a read borrows the bytes.
    ///
    /// Returns `None` and does nothing if there is no such tenant.
    #[inline(always)]
    pub fn ask(&mut self, tenant: u32, request: Request<'_>) -> Option<(u8, Answer<'_>)>
        requires { IsAskable request }
        ensures* asked { sem 𝓛 (RestsRequested self.entry tenant request.entry result) }
        ensures few { IfSome result (λ answer. HasFewBytes answer.1) }
        // Only a read returns bytes.
        ensures bytes { IfSome result (λ answer. asks_bytes request.entry ≡ false → has_bytes answer.1 ≡ false) }
    {
        if tenant >= u32::from(self.buddy.tenants()) {
            return None;
        }
        let t = tenant as u8;
        Some((t, self.ask_known(t, request)))
    }

    /// Does the same as [`Kernel::ask`] for tenant `t`, which must exist, and returns only the answer.
    #[inline(always)]
    pub fn ask_known(&mut self, t: u8, request: Request<'_>) -> Answer<'_>
        requires tenant { t < self.old.tenants }
        requires askable { IsAskable request }
        ensures* asked { sem 𝓛 (RestsRequestedKnown self.entry t request.entry result) }
        ensures few { HasFewBytes result }
        ensures bytes { asks_bytes request.entry ≡ false → has_bytes result ≡ false }
    {
        self.parts_agree();
        self.run(t, request)
    }

    /// Runs the request of tenant `t`, which must exist, and returns the answer.
    #[inline(always)]
    pub(crate) fn run(&mut self, t: u8, request: Request<'_>) -> Answer<'_>
        requires tenant { t < self.old.tenants }
        requires askable { IsAskable request }
        ensures* steps { sem 𝓛 (RestsStepped self.entry t request.entry result) }
        ensures few { HasFewBytes result }
        ensures bytes { asks_bytes request.entry ≡ false → has_bytes result ≡ false }
    {
        let answer = match request {
            Request::Alloc { order } => match self.alloc(t, order) {
                Ok(frame) => Answer::Frame(frame),
                Err(refusal) => Answer::Refused(refusal),
            },
            Request::Free { frame } => match self.free(t, frame) {
                Ok(order) => Answer::Freed(order),
                Err(refusal) => Answer::Refused(refusal),
            },
            Request::Read { place, len } => {
                return match self.read(t, place, len) {
                    Ok(bytes) => Answer::Bytes(bytes),
                    Err(refusal) => Answer::Refused(refusal),
                };
            }
            Request::Write { place, bytes } => match self.write(t, place, bytes) {
                Ok(count) => Answer::Written(count),
                Err(refusal) => Answer::Refused(refusal),
            },
            Request::Cache {
                size,
                align,
                pattern,
            } => match self.make_cache(t, size, align, pattern) {
                Ok(answer) => answer,
                Err(refusal) => Answer::Refused(refusal),
            },
            Request::Destroy { cache } => match self.destroy(t, cache) {
                Ok(frames) => Answer::Destroyed(frames),
                Err(refusal) => Answer::Refused(refusal),
            },
            Request::Take { cache } => match self.take(t, cache) {
                Ok(place) => Answer::Object(place),
                Err(refusal) => Answer::Refused(refusal),
            },
            Request::Give { cache, place } => match self.give(t, cache, place) {
                Ok(()) => Answer::Given,
                Err(refusal) => Answer::Refused(refusal),
            },
            Request::Reap => Answer::Reaped(self.reap(t)),
        };
        self.parts_agree();
        answer
    }

    /// Returns the reply to the event `report` of a tenant. [`Kernel::step`] returns the same reply for that event.
    #[cold]
    #[inline(never)]
    pub fn report(&self, tenant: u32) -> Reply
        ensures { Steps self.now (Event.Tenant tenant Command.Report) self.now result }
    {
        let Some(t) = self.tenant(tenant) else {
            return Reply {
                addressee: Addressee::Nobody,
                body: Body::Refused(Refusal::NoTenant),
            };
        };
        Reply {
            addressee: Addressee::Tenant(t),
            body: Body::Report(self.figures(t)),
        }
    }
}
