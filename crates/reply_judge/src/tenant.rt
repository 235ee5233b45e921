//! What is known of a tenant.

ghost use Rattle.std.specs.Prelude.{◌≡◌, ◌==◌, ◌≤◌, ℕ, IfOk, None, find, is_some, length};
ghost use Rattle.model_core.specs.declared.limits.TheConstants.{MAX_ORDER, MAX_SUPERBLOCKS};
ghost use Rattle.model_core.specs.Operations.{overlaps};
ghost use Rattle.words_core.specs.Requests.{body_of_answer};
ghost use Rattle.words_core.specs.declared.event.Event.TheVariants as On;
ghost use Rattle.promise_core.specs.Holdings.{has_slot, known_cache};
ghost use Rattle.promise_core.specs.State.{Known};
ghost use Rattle.reply_judge.specs.Judged.{IsVerdictFor, AreOwnersAfter};
ghost use Rattle.reply_judge.specs.Seen.{Seen, IsOpeningTenant};

use crate::verdict::Failure;
use known_holdings::{FrameBlock, Held, KnownLayout};
use model_core::owner::Owner;
use shadow_memory::ShadowMemory;
use std::alloc::{AllocError, Global};
use std::marker::Model;
use words_core::{AdminCommand, Answer, CACHES, Command, Report};

/// What replies reported about a tenant: its slots, page blocks, caches and objects, what was left at each place, which caches
/// may have empty slabs, and the last report if it is still valid. An answer or a report that keeps every promise is followed: it
/// updates this state.
#[derive(Debug, Drop)]
pub struct Tenant {
    pub(crate) alloc: Global,
    pub(crate) held: Held,
    pub(crate) left: ShadowMemory,
    /// Indexed by cache number: whether the cache may have an empty slab.
    pub(crate) may_have_empty: [bool; CACHES],
    pub(crate) last_report: Option<Report>,
}

impl Model for Tenant {
    ghost use Rattle.reply_judge.specs.Seen.{Seen, LieInSlots};

    ghost Value = { Seen };

    ghost view = { λ t. record { has = t.held; left = t.left; may_have_empty = t.may_have_empty; last_report = t.last_report } };

    ghost invariant = { λ t. LieInSlots t.held t.left };
}

impl Tenant {
    /// Returns a tenant that has nothing, with capacity for `slots` slots of `2^order` frames. Fails if memory runs out.
    pub fn new(alloc: Global, order: u8, slots: u16) -> Result<Tenant, AllocError>
        requires order { order ≤ MAX_ORDER }
        requires slots { slots ≤ MAX_SUPERBLOCKS }
        ensures { IfOk result (IsOpeningTenant order) }
    {
        Ok(Tenant {
            alloc,
            held: Held::new(alloc, order, slots)?,
            left: ShadowMemory::new(alloc, order),
            may_have_empty: [false; CACHES],
            last_report: None,
        })
    }

    /// Returns the order of a slot, which has `2^order` frames.
    pub fn order(&self) -> u8
        ensures value { result ≡ self.now.left.order }
        ensures most { result ≤ MAX_ORDER }
    {
        self.left.order()
    }

    /// Returns the first live page block that shares a frame with the block, if there is one.
    pub fn page_over(&self, block: &FrameBlock) -> Option<FrameBlock>
        ensures { result ≡ find (overlaps block.now) self.now.has.pages }
    {
        self.held.page_over(block)
    }

    /// Returns the live page block that begins at the frame, if one does.
    pub(crate) fn page_at(&self, frame: u32) -> Option<FrameBlock>
        ensures { result ≡ find (λ b. b.first == frame) self.now.has.pages }
    {
        self.held.page_at(frame).copied()
    }

    /// Returns the number of caches of the tenant.
    pub fn caches(&self) -> usize
        ensures { result ≡ length self.now.has.caches }
    {
        self.held.caches().len()
    }

    /// Returns whether the tenant holds the slot.
    pub(crate) fn holds_slot(&self, slot: u32) -> bool
        ensures { result ≡ has_slot self.now.has slot }
    {
        self.held.has_slot(slot)
    }

    /// Returns whether the tenant has a cache with this number.
    pub(crate) fn has_cache(&self, number: u32) -> bool
        ensures { result ≡ is_some (known_cache self.now.has number) }
    {
        self.held.cache(number).is_some()
    }

    /// Judges and follows the reply to a command of the tenant.
    pub(crate) fn judge(&mut self, command: &Command, answer: &Answer<'_>) -> Result<(), Failure>
        ensures { (t : ℕ) (w : Known)
            → IsVerdictFor (On.Tenant t command.now) (body_of_answer answer.now) w self.old self.new result }
    {
        match (command, answer) {
            (Command::Alloc { order }, Answer::Frame(frame)) => self.add_block(*order, *frame),
            (Command::Free { frame }, Answer::Freed(order)) => self.drop_block(*frame, *order),
            (Command::Read { place, len }, Answer::Bytes(bytes)) => {
                self.read_bytes(*place, *len, bytes)
            }
            (Command::Write { place, bytes }, Answer::Written(count)) => {
                self.write_bytes(*place, bytes, *count)
            }
            (
                Command::Cache {
                    size,
                    align,
                    pattern,
                },
                Answer::Cache {
                    cache,
                    chunk,
                    order,
                    objects,
                    colours,
                },
            ) => {
                let layout = KnownLayout {
                    size: *size,
                    align: *align,
                    chunk: *chunk,
                    order: *order,
                    count: *objects,
                    colours: *colours,
                };
                self.add_cache(*cache, layout, pattern)
            }
            (Command::Destroy { cache }, Answer::Destroyed(frames)) => {
                self.drop_cache(*cache, *frames)
            }
            (Command::Take { cache }, Answer::Object(place)) => self.add_object(*cache, *place),
            (Command::Give { cache, place }, Answer::Given) => self.drop_object(*cache, *place),
            (Command::Reap, Answer::Reaped(frames)) => self.drop_empty_slabs(*frames),
            _ => self.judge_refusal(command, answer),
        }
    }

    /// Judges and follows the reply to a command of the administrator about the tenant. `owners` has the owner of each
    /// superblock.
    pub(crate) fn judge_admin(
        &mut self,
        owners: &mut [Option<Owner>],
        command: &AdminCommand,
        answer: &Answer<'_>,
    ) -> Result<(), Failure>
        ensures judged { (w : Known) → IsVerdictFor (On.Admin command.now) (body_of_answer answer.now)
            (record w { owners = owners.old }) self.old self.new result }
        ensures owners { AreOwnersAfter (On.Admin command.now) (body_of_answer answer.now) owners.old owners.new result }
    {
        match (command, answer) {
            (
                AdminCommand::Grant { tenant: t },
                Answer::Granted {
                    tenant,
                    slot,
                    superblock,
                },
            ) => self.add_superblock(owners, *t, *tenant, *slot, *superblock),
            (AdminCommand::TakeBack { tenant, slot }, Answer::TakenBack(superblock)) => {
                self.drop_superblock(owners, *tenant, *slot, *superblock)
            }
            (
                AdminCommand::Reset { tenant: t },
                Answer::WasReset {
                    tenant,
                    superblocks,
                },
            ) => self.drop_all(owners, *t, *tenant, *superblocks),
            (
                AdminCommand::Move { tenant: t, slot },
                Answer::Moved {
                    tenant,
                    slot: named,
                    superblock,
                },
            ) => self.put_over(owners, *t, *slot, *tenant, *named, *superblock),
            _ => self.judge_admin_refusal(owners, command, answer),
        }
    }
}

/// Forgets a report, if there is one. Storing `None` clears the memory of a whole report, so this is done only if needed.
pub(crate) fn forget(report: &mut Option<Report>)
    ensures { report.new ≡ None }
{
    if report.is_some() {
        *report = None;
    }
}
