//! Which number of the reply to a request for a new cache is wrong.

ghost use Rattle.std.specs.Prelude.{◌≡◌, ◌+◌, ◌-◌, ◌*◌, ◌/◌, ◌^◌, ◌≤◌, ◌<◌};
ghost use Rattle.model_core.specs.declared.limits.TheConstants.{FRAME_BYTES, MAX_ORDER};
ghost use Rattle.words_core.specs.Requests.{body_of_answer};
ghost use Rattle.promise_core.specs.State.{Known};
ghost use Rattle.reply_judge.specs.KnownMachine.{ShowsKnown};
ghost use Rattle.trace_check.specs.NewCache.{layout_wrong, number_wrong, over_room};
ghost use Rattle.trace_check.specs.Reasons.{new_cache_wrong};
ghost use Rattle.trace_check.specs.declared.reason.Reason.TheVariants as Why;

use crate::figure::Figure;
use crate::reason::Reason;
use known_holdings::KnownLayout;
use model_core::limits::{FRAME_BYTES, MAX_CACHES};
use reply_judge::{Bound, KnownMachine};
use words_core::{Answer, Command, Event};

/// Returns what is wrong with the number or the layout of the answer's new cache.
pub(crate) fn layout_reason(
    machine: &KnownMachine,
    event: &Event,
    answer: &Answer<'_>,
) -> Option<Reason>
    ensures { (w : Known) → ShowsKnown machine.now w → result ≡ new_cache_wrong w event.now (body_of_answer answer.now) }
{
    match (event, answer) {
        (
            Event::Tenant(tenant, Command::Cache { size, align, .. }),
            Answer::Cache {
                cache,
                chunk,
                order,
                objects,
                colours,
            },
        ) => {
            let layout = KnownLayout {
                size: *size,
                align: *align,
                chunk: *chunk,
                order: *order,
                count: *objects,
                colours: *colours,
            };
            match number_wrong(machine, *tenant, *cache) {
                Some(reason) => Some(reason),
                None => layout_wrong(machine.order(), &layout),
            }
        }
        _ => None,
    }
}

/// Returns why the tenant may not get a new cache with this number.
fn number_wrong(machine: &KnownMachine, tenant: u32, number: u8) -> Option<Reason>
    ensures { (w : Known) → ShowsKnown machine.now w → result ≡ number_wrong w tenant number }
{
    if number >= MAX_CACHES {
        return Some(figure(Figure::Cache, Bound::AtMost(u128::from(MAX_CACHES) - 1)));
    }
    if machine.has_cache(tenant, number.into()) {
        return Some(Reason::Existing(number));
    }
    None
}

/// Returns the first number of the layout of a new cache that is wrong. Slots have `2^order` frames.
#[tactic(auto, unfolding(crate::specs::NewCache::layout_wrong))]
fn layout_wrong(order: u8, layout: &KnownLayout) -> Option<Reason>
    requires { order ≤ MAX_ORDER }
    ensures { let l = layout.now in result ≡ layout_wrong order l.size l.align l.chunk l.order l.count l.colours }
{
    if layout.align == 0 {
        None
    } else if layout.chunk < layout.size {
        Some(figure(Figure::Chunk, Bound::AtLeast(layout.size.into())))
    } else if layout.chunk % layout.align != 0 {
        Some(figure(Figure::Chunk, Bound::MultipleOf(layout.align.into())))
    } else if layout.order > order {
        Some(figure(Figure::Order, Bound::AtMost(order.into())))
    } else if layout.count < 1 {
        Some(figure(Figure::Objects, Bound::AtLeast(1)))
    } else if layout.colours < 1 {
        Some(figure(Figure::Colours, Bound::AtLeast(1)))
    } else {
        over_room(layout, room_of(layout.order))
    }
}

/// Returns the number of bytes in a slab of `2^order` frames.
fn room_of(order: u8) -> u64
    requires { order ≤ MAX_ORDER }
    ensures value { result ≡ FRAME_BYTES * 2 ^ order }
    ensures most { result ≤ 2 ^ 20 }
{
    u64::from(FRAME_BYTES) << order
}

/// Returns which number of the layout is too large for slabs of `room` bytes.
fn over_room(layout: &KnownLayout, room: u64) -> Option<Reason>
    requires room { room ≤ 2 ^ 20 }
    requires align { 1 ≤ layout.now.align }
    requires colours { 1 ≤ layout.now.colours }
    ensures { let l = layout.now in result ≡ over_room room l.align l.chunk l.count l.colours }
{
    let objects = u64::from(layout.count) * u64::from(layout.chunk);
    if objects > room {
        return Some(figure(
            Figure::Objects,
            Bound::AtMost((room / u64::from(layout.chunk)).into()),
        ));
    }
    let left = room - objects;
    let colours = u64::from(layout.align) * u64::from(layout.colours - 1);
    if colours > left {
        return Some(figure(
            Figure::Colours,
            Bound::AtMost((left / u64::from(layout.align) + 1).into()),
        ));
    }
    None
}

/// Returns the reason that this number is not within this bound.
fn figure(figure: Figure, bound: Bound) -> Reason
    ensures { result ≡ Why.Figure figure bound }
{
    Reason::Figure { figure, bound }
}
