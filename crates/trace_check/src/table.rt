//! Reports and the table of owners. Each has a first line, and then rows that begin with the same front as that line. The front
//! is the addressee, such as `3> `.

ghost use Rattle.std.specs.Prelude.{◌≡◌, ◌==◌, ◌&&◌, count_by, is_none, length, true, Some, IfSome};
ghost use Rattle.words_core.specs.Requests.{is_table};
ghost use Rattle.words_core.specs.Texts.{text_of};
ghost use Rattle.words_core.specs.declared.reply.Reply.{Reply as ReplyValue};
ghost use Rattle.trace_check.specs.Forms.{Gives};
ghost use Rattle.trace_check.specs.Ranges.{Fits};
ghost use Rattle.trace_check.specs.Tables.{top_at, no_top_at, some_top_at, report_at, pool_at, table_of};

use crate::answer::addressee_at;
use crate::form::form_at;
use crate::rows::rows_at;
use model_core::owner::Owner;
use model_core::report::{CacheRow, OrderRow};
use words_core::{Body, CACHES, ORDERS, OWNERS, Reply, Report};

/// Reads `text` as a whole report or table of owners, with its line feeds. Returns `None` if it is neither.
#[cold]
#[inline(never)]
pub fn read_table(text: &[u8]) -> Option<Reply>
    // The returned table has this text.
    ensures found { IfSome result (λ table. text_of table ≡ text.now) }
    // If a table has this text, it is returned.
    ensures only { (due : ReplyValue) → Fits due → is_table due.body ≡ true → text_of due ≡ text.now → result ≡ Some due }
    ensures table { IfSome result (λ table. is_table table.body ≡ true) }
    // The result as a function of the text.
    ensures exact { result ≡ table_of text.now }
{
    table_of(text)
}

#[tactic(auto, unfolding(crate::specs::Tables::table_of))]
fn table_of(text: &[u8]) -> Option<Reply>
    ensures { result ≡ table_of text.now }
{
    let (addressee, rest) = addressee_at(text)?;
    let front = &text[..text.len() - rest.len()];
    let (body, rest) = report_at(front, rest).or_else(|| pool_at(front, rest))?;
    match rest {
        [] => Some(Reply { addressee, body }),
        _ => None,
    }
}

#[tactic(auto, unfolding(crate::specs::Tables::report_at))]
fn report_at<'a>(front: &[u8], text: &'a [u8]) -> Option<(Body, &'a [u8])>
    ensures { Gives (λ found. (found.0, found.1.now)) result (report_at front.now text.now) }
{
    let ([frames, live, free], rest) = form_at::<3>(b"frames # live # free # top ", text)?;
    let (top, split, rest) = some_top_at(rest)?;
    let (orders, rest) = rows_at::<OrderRow, ORDERS>(front, rest);
    let (caches, rest) = rows_at::<CacheRow, CACHES>(front, rest);
    let report = Report {
        frames,
        live,
        free,
        top,
        split,
        orders,
        caches,
    };
    Some((Body::Report(report), rest))
}

/// Returns the greatest order of a free block, if there is one, the share of free frames outside the largest free block, and the
/// text that follows.
#[tactic(auto, unfolding(crate::specs::Tables::some_top_at))]
fn some_top_at(text: &[u8]) -> Option<(Option<u8>, u32, &[u8])>
    ensures { Gives (λ found. ((found.0, found.1), found.2.now)) result (some_top_at text.now) }
{
    top_at(text).or_else(|| no_top_at(text))
}

#[tactic(auto, unfolding(crate::specs::Tables::top_at))]
fn top_at(text: &[u8]) -> Option<(Option<u8>, u32, &[u8])>
    ensures { Gives (λ found. ((found.0, found.1), found.2.now)) result (top_at text.now) }
{
    let ([top, split], rest) = form_at::<2>(b"# split #\n", text)?;
    Some((Some(u8::try_from(top).ok()?), split, rest))
}

#[tactic(auto, unfolding(crate::specs::Tables::no_top_at))]
fn no_top_at(text: &[u8]) -> Option<(Option<u8>, u32, &[u8])>
    ensures { Gives (λ found. ((found.0, found.1), found.2.now)) result (no_top_at text.now) }
{
    let ([split], rest) = form_at::<1>(b"none split #\n", text)?;
    Some((None, split, rest))
}

#[tactic(auto, unfolding(crate::specs::Tables::pool_at))]
fn pool_at<'a>(front: &[u8], text: &'a [u8]) -> Option<(Body, &'a [u8])>
    ensures { Gives (λ found. (found.0, found.1.now)) result (pool_at front.now text.now) }
{
    let ([free, count], rest) = form_at::<2>(b"pool free # of #\n", text)?;
    let (owners, rest) = rows_at::<Option<Owner>, OWNERS>(front, rest);
    if !are_counts(free, count, owners.as_slice()) {
        return None;
    }
    Some((Body::Owners(owners), rest))
}

/// Returns whether there are `count` superblocks and `free` of them have no owner.
fn are_counts(free: u32, count: u32, owners: &[Option<Owner>]) -> bool
    ensures { result ≡ (count_by is_none owners.now == free && length owners.now == count) }
{
    let unowned = owners.iter().filter(|owner| owner.is_none()).count();
    unowned == free as usize && owners.len() == count as usize
}
