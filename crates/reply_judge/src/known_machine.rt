//! What is known of a machine.

ghost use Rattle.std.specs.Prelude.{◌≡◌, ◌==◌, ◌≤◌, IfOk, None, count_by, false, filter, find, is_some, length, option_map, replicate, slice_get, true};
ghost use Rattle.model_core.specs.declared.limits.TheConstants.{MAX_CACHES, MAX_ORDER, MAX_SUPERBLOCKS};
ghost use Rattle.model_core.specs.Operations.{overlaps};
ghost use Rattle.std.specs.Option.{option_map_or};
ghost use Rattle.promise_core.specs.State.{opening, Known};
ghost use Rattle.model_core.specs.Owners.{is_of};
ghost use Rattle.promise_core.specs.Holdings.{has_slot, known_cache};
ghost use Rattle.reply_judge.specs.Due.{refusal_due};
ghost use Rattle.reply_judge.specs.Faults.{block_fault, object_fault};
ghost use Rattle.reply_judge.specs.Emptied.{frames_due, frames_told};
ghost use Rattle.reply_judge.specs.Idle.{idle_slot};
ghost use Rattle.reply_judge.specs.Repeated.{figure_changed};
ghost use Rattle.reply_judge.specs.Seen.{state_of};
ghost use Rattle.reply_judge.specs.Vacancy.{left_for_block, left_for_object};
ghost use Rattle.reply_judge.specs.WrongBytes.{wrong_byte};
ghost use Rattle.reply_judge.specs.WrongOwners.{wrong_owner};
ghost use Rattle.reply_judge.specs.WrongReports.{figure_wrong};
ghost use Rattle.shadow_memory.specs.Left.{left_at};
ghost use Rattle.reply_judge.specs.KnownMachine.{ShowsKnown};

use crate::addressing::tenant_named;
use crate::bound::Bound;
use crate::faults::{BlockFault, ObjectFault};
use crate::figures::WrongFigure;
use crate::owners::{count_of, wrong_owner};
use crate::tenant::Tenant;
use crate::vacancy::Vacancy;
use crate::wrong_bytes::WrongByte;
use known_holdings::FrameBlock;
use model_core::owner::Owner;
use std::alloc::{AllocError, Global};
use std::marker::Model;
use words_core::{Event, Refusal, Report};

/// What replies reported about a machine: the owner of each superblock, and what each tenant has.
#[derive(Debug, Drop)]
pub struct KnownMachine {
    pub(crate) order: u8,
    /// Indexed by superblock. `None` if nobody owns the superblock.
    pub(crate) owners: Vec<Option<Owner>>,
    /// Indexed by the tenant's number.
    pub(crate) tenants: Vec<Tenant>,
}

impl Model for KnownMachine {
    ghost use Rattle.reply_judge.specs.KnownMachine.{SeenMachine, FitsLimits};

    ghost Value = { SeenMachine };

    ghost view = { λ m. record { order = m.order; owners = m.owners.items; tenants = m.tenants.items } };

    ghost invariant = { λ m. FitsLimits (record { order = m.order; owners = m.owners.items; tenants = m.tenants.items }) };
}

impl KnownMachine {
    /// Returns a machine with this number of superblocks of `2^order` frames, which nobody owns, and this number of tenants,
    /// which have nothing. Fails if memory runs out.
    pub fn new(
        alloc: Global,
        order: u8,
        superblocks: u16,
        tenants: u8,
    ) -> Result<KnownMachine, AllocError>
        requires order { order ≤ MAX_ORDER }
        requires superblocks { superblocks ≤ MAX_SUPERBLOCKS }
        ensures { IfOk result (λ machine. ShowsKnown machine (opening MAX_CACHES order superblocks tenants)) }
    {
        let owners = vec![in alloc; None; superblocks as usize]?;
        let mut all = Vec::new(alloc);
        for _tenant in 0..tenants {
            all.push(Tenant::new(alloc, order, superblocks)?)?;
        }
        Ok(KnownMachine {
            order,
            owners,
            tenants: all,
        })
    }

    /// Returns the order of a slot, which has `2^order` frames.
    pub fn order(&self) -> u8
        ensures value { result ≡ self.now.order }
        ensures most { result ≤ MAX_ORDER }
    {
        self.order
    }

    /// Returns the number of superblocks.
    pub fn superblocks(&self) -> usize
        ensures value { result ≡ length self.now.owners }
        ensures most { result ≤ MAX_SUPERBLOCKS }
    {
        self.owners.len()
    }

    /// Returns the first live page block of the tenant that shares a frame with the block. Returns `None` if there is none, or if
    /// the tenant does not exist.
    pub fn page_over(&self, tenant: u32, block: &FrameBlock) -> Option<FrameBlock>
        ensures { result ≡ option_map_or (λ y. find (overlaps block.now) y.has.pages) (slice_get self.now.tenants tenant) None }
    {
        self.tenants.get(tenant as usize)?.page_over(block)
    }

    /// Returns the live page block of the tenant that begins at the frame. Returns `None` if there is none, or if the tenant does
    /// not exist.
    pub fn page_at(&self, tenant: u32, frame: u32) -> Option<FrameBlock>
        ensures { result ≡ option_map_or (λ y. find (λ b. b.first == frame) y.has.pages) (slice_get self.now.tenants tenant) None }
    {
        self.tenants.get(tenant as usize)?.page_at(frame)
    }

    /// Returns what keeps the block of the tenant from standing, if it shares no frame with a page block. Returns `None` if
    /// nothing does, or if the tenant does not exist.
    pub fn block_fault(&self, tenant: u32, block: &FrameBlock) -> Option<BlockFault>
        ensures { result ≡ option_map_or (λ y. block_fault self.now.order y.has block.now) (slice_get self.now.tenants tenant) None }
    {
        self.tenants
            .get(tenant as usize)?
            .block_fault(self.order(), block)
    }

    /// Returns the owner of the superblock, if it has one. Returns `None` if the superblock does not exist.
    pub fn owner_of(&self, superblock: u16) -> Option<Option<Owner>>
        ensures { result ≡ slice_get self.now.owners superblock }
    {
        self.owners.get(usize::from(superblock)).copied()
    }

    /// Returns the first superblock whose owner in a table of owners is wrong, if there is one.
    pub fn wrong_owner(&self, table: &[Option<Owner>]) -> Option<u16>
        ensures { result ≡ wrong_owner self.now.owners table.now }
    {
        wrong_owner(&self.owners, table)
    }

    /// Returns the first wrong byte of a tenant's read of `len` bytes that begins at `place`. Returns `None` if no byte is wrong,
    /// if no holder has all of these bytes, or if the tenant does not exist.
    pub fn wrong_byte(&self, tenant: u32, place: u32, len: u32, bytes: &[u8]) -> Option<WrongByte>
        ensures { result ≡ option_map_or (λ y. wrong_byte y.has (left_at y.left) place len bytes.now)
            (slice_get self.now.tenants tenant) None }
    {
        self.tenants
            .get(tenant as usize)?
            .wrong_byte(place, len, bytes)
    }

    /// Returns what keeps an object of a tenant's cache from being taken at the place. Returns `None` if nothing is found, or if the
    /// tenant or the cache does not exist.
    pub fn object_fault(&self, tenant: u32, cache: u32, place: u32) -> Option<ObjectFault>
        ensures { result ≡ option_map_or (λ y. object_fault self.now.order y.has cache place) (slice_get self.now.tenants tenant) None }
    {
        self.tenants
            .get(tenant as usize)?
            .object_fault(self.order(), cache, place)
    }

    /// Returns a vacant block for a tenant's block of `2^k` frames, if there is one and the tenant exists.
    pub fn left_for_block(&self, tenant: u32, k: u8) -> Option<Vacancy>
        requires { k ≤ MAX_ORDER }
        ensures { result ≡ option_map_or (λ y. left_for_block self.now.order y.has k) (slice_get self.now.tenants tenant) None }
    {
        self.tenants
            .get(tenant as usize)?
            .left_for_block(self.order(), k)
    }

    /// Returns what is left for an object of a tenant's cache, if anything is, and the tenant and the cache exist.
    pub fn left_for_object(&self, tenant: u32, cache: u32) -> Option<Vacancy>
        ensures { result ≡ option_map_or (λ y. left_for_object self.now.order y.has cache) (slice_get self.now.tenants tenant) None }
    {
        self.tenants
            .get(tenant as usize)?
            .left_for_object(self.order(), cache)
    }

    /// Returns the slot of a tenant if it cannot be busy: the tenant holds it, no frame of it is taken, and no cache may have an
    /// empty slab. Returns `None` otherwise, or if the tenant does not exist.
    pub fn idle_slot(&self, tenant: u32, slot: u32) -> Option<u16>
        ensures { result ≡ option_map_or (λ y. idle_slot self.now.order (state_of y) slot) (slice_get self.now.tenants tenant) None }
    {
        self.tenants
            .get(tenant as usize)?
            .idle_slot(self.order(), slot)
    }

    /// Returns the refusal that the reply to the event has to be, if there is one.
    pub fn due(&self, event: &Event) -> Option<Refusal>
        ensures { (w : Known) → ShowsKnown self.now w → result ≡ refusal_due w event.now }
    {
        let Some(t) = tenant_named(event) else {
            return None;
        };
        if t as usize >= self.tenants.len() {
            return Some(Refusal::NoTenant);
        }
        match event {
            Event::Tenant(_, command) => self.tenants[t as usize].due(command),
            Event::Admin(command) => self.tenants[t as usize].due_of_admin(&self.owners, command),
        }
    }

    /// Returns what the number of frames that come back from empty slabs of the tenant's cache `only`, or of all its caches if
    /// `only` is `None`, has to be. Returns `None` if it may be `frames`, or if the tenant does not exist.
    pub fn frames_due(&self, tenant: u32, only: Option<u32>, frames: u32) -> Option<Bound>
        ensures { result ≡ option_map_or (λ y. frames_due self.now.order (state_of y)
            (filter (λ c. option_map_or (λ number. c.number == number) only true) y.has.caches) frames)
            (slice_get self.now.tenants tenant) None }
    {
        self.tenants
            .get(tenant as usize)?
            .frames_due(self.order(), only, frames)
    }

    /// Returns the number of frames that the tenant's last report counts in empty slabs of the cache `only`, or of all caches if
    /// `only` is `None`. Returns `None` if no report is valid, or if the tenant does not exist.
    pub fn frames_told(&self, tenant: u32, only: Option<u32>) -> Option<u128>
        ensures { result ≡ option_map_or (λ y. frames_told (state_of y) only) (slice_get self.now.tenants tenant) None }
    {
        self.tenants.get(tenant as usize)?.frames_told(only)
    }

    /// Returns the first number of the tenant's report that is wrong. Returns `None` if none is, or if the tenant does not exist.
    pub fn figure_wrong(&self, tenant: u32, report: &Report) -> Option<WrongFigure>
        ensures { result
            ≡ option_map_or (λ y. let s = state_of y in figure_wrong self.now.order s.may_have_empty s.has report.now)
            (slice_get self.now.tenants tenant) None }
    {
        self.tenants
            .get(tenant as usize)?
            .figure_wrong(self.order(), report)
    }

    /// Returns the first number of the tenant's last report that the report has to repeat, and does not. Returns `None` if no
    /// report is valid, or if the tenant does not exist.
    pub fn figure_changed(&self, tenant: u32, report: &Report) -> Option<WrongFigure>
        ensures { result ≡ option_map_or (λ y. figure_changed (state_of y) report.now) (slice_get self.now.tenants tenant) None }
    {
        self.tenants.get(tenant as usize)?.figure_changed(report)
    }

    /// Returns whether the tenant exists and holds the slot.
    pub fn holds_slot(&self, tenant: u32, slot: u32) -> bool
        ensures { result ≡ option_map_or (λ y. has_slot y.has slot) (slice_get self.now.tenants tenant) false }
    {
        match self.tenants.get(tenant as usize) {
            Some(tenant) => tenant.holds_slot(slot),
            None => false,
        }
    }

    /// Returns the number of superblocks that the tenant owns.
    pub fn superblocks_of(&self, tenant: u32) -> usize
        ensures { result ≡ count_by (is_of tenant) self.now.owners }
    {
        count_of(&self.owners, tenant)
    }

    /// Returns whether the tenant exists and has a cache with this number.
    pub fn has_cache(&self, tenant: u32, number: u32) -> bool
        ensures { result ≡ option_map_or (λ y. is_some (known_cache y.has number)) (slice_get self.now.tenants tenant) false }
    {
        match self.tenants.get(tenant as usize) {
            Some(tenant) => tenant.has_cache(number),
            None => false,
        }
    }

    /// Returns the number of caches of the tenant, or `None` if the tenant does not exist.
    pub fn caches_of(&self, tenant: u32) -> Option<usize>
        ensures { result ≡ option_map (λ y. length y.has.caches) (slice_get self.now.tenants tenant) }
    {
        Some(self.tenants.get(tenant as usize)?.caches())
    }
}
