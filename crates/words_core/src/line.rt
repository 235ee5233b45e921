//! Reads a line as an event, nothing, or a fault.

ghost use Rattle.std.specs.Prelude.{◌≡◌, Option, Result, map};
ghost use Rattle.std.specs.Str.Lines.{strip_carriage_return};
ghost use Rattle.words_core.specs.declared.event.Event.{Event as EventValue};
ghost use Rattle.words_core.specs.declared.event.LineFault.{LineFault as Fault};
ghost use Rattle.words_core.specs.Cases.{Says};
ghost use Rattle.words_core.specs.Commands.{admin_rows, tenant_rows};
ghost use Rattle.words_core.specs.Grammar.{command_of, command_in_words, tenant_of, event_of, reading_of_words, reading_of};

use crate::commands::{
    alloc_of, cache_of, destroy_of, free_of, give_of, grant_of, move_of, pool_of, read_of, reap_of,
    report_of, reset_of, take_back_of, take_of, write_of,
};
use crate::event::{AdminCommand, Command, Event, LineFault};
use crate::numbers::number;
use crate::words::split_words;

/// The largest number of bytes in a line, not counting its line feed and one carriage return before it.
pub const MAX_LINE_BYTES: usize = 255;

/// Reads a line of a trace. Returns its event, `None` for a blank line or a comment, or its fault.
///
/// The line is passed without its line feed. One carriage return at its end is ignored.
pub fn read_line(line: &[u8]) -> Result<Option<Event>, LineFault>
    // The line has the returned meaning and no other.
    ensures says { Says line.now result }
    ensures only { (other : Result (Option EventValue) Fault) → Says line.now other → other ≡ result }
    // This meaning is `reading_of` of the line.
    ensures exact { result ≡ reading_of line.now }
{
    let line = without_carriage_return(line);
    if line.len() > MAX_LINE_BYTES {
        return Err(LineFault::Long);
    }
    judged(split_words(line).as_slice())
}

fn without_carriage_return(line: &[u8]) -> &[u8]
    ensures { result.now ≡ strip_carriage_return line.now }
{
    match line {
        [rest @ .., b'\r'] => rest,
        _ => line,
    }
}

#[tactic(auto, unfolding(crate::specs::Grammar::reading_of_words))]
fn judged(words: &[&[u8]]) -> Result<Option<Event>, LineFault>
    ensures { result ≡ reading_of_words (map (λ word. word.now) words.now) }
{
    match words {
        [] | [[b'#', ..], ..] => Ok(None),
        [first, rest @ ..] => Ok(Some(event_of(first, rest)?)),
    }
}

#[tactic(auto, unfolding(crate::specs::Grammar::event_of))]
fn event_of(first: &[u8], rest: &[&[u8]]) -> Result<Event, LineFault>
    ensures { result ≡ event_of first.now (map (λ word. word.now) rest.now) }
{
    if first == b"admin".as_slice() {
        return Ok(Event::Admin(asked_of_admin(rest)?));
    }
    let tenant = tenant_of(first)?;
    Ok(Event::Tenant(tenant, asked_of_tenant(rest)?))
}

fn tenant_of(word: &[u8]) -> Result<u32, LineFault>
    ensures { result ≡ tenant_of word.now }
{
    number(word).ok_or(match word {
        [b'0'..=b'9', ..] => LineFault::Number,
        _ => LineFault::Unknown,
    })
}

fn asked_of_admin(words: &[&[u8]]) -> Result<AdminCommand, LineFault>
    ensures { result ≡ command_in_words admin_rows (map (λ word. word.now) words.now) }
{
    match words {
        [] => Err(LineFault::Words),
        [name, arguments @ ..] => admin_command_of(name, arguments),
    }
}

fn asked_of_tenant(words: &[&[u8]]) -> Result<Command, LineFault>
    ensures { result ≡ command_in_words tenant_rows (map (λ word. word.now) words.now) }
{
    match words {
        [] => Err(LineFault::Words),
        [name, arguments @ ..] => tenant_command_of(name, arguments),
    }
}

fn admin_command_of(name: &[u8], arguments: &[&[u8]]) -> Result<AdminCommand, LineFault>
    ensures { result ≡ command_of admin_rows name.now (map (λ word. word.now) arguments.now) }
{
    // This is a chain of tests, for the reason given in `tenant_command_of`.
    if name == b"grant".as_slice() {
        grant_of(arguments)
    } else if name == b"takeback".as_slice() {
        take_back_of(arguments)
    } else if name == b"reset".as_slice() {
        reset_of(arguments)
    } else if name == b"move".as_slice() {
        move_of(arguments)
    } else if name == b"pool".as_slice() {
        pool_of(arguments)
    } else {
        Err(LineFault::Unknown)
    }
}

fn tenant_command_of(name: &[u8], arguments: &[&[u8]]) -> Result<Command, LineFault>
    ensures { result ≡ command_of tenant_rows name.now (map (λ word. word.now) arguments.now) }
{
    // This is a chain of tests, because the prover expands a match on ten byte strings into a tree with more than thirty leaves.
    if name == b"alloc".as_slice() {
        alloc_of(arguments)
    } else if name == b"free".as_slice() {
        free_of(arguments)
    } else if name == b"read".as_slice() {
        read_of(arguments)
    } else if name == b"write".as_slice() {
        write_of(arguments)
    } else if name == b"cache".as_slice() {
        cache_of(arguments)
    } else if name == b"destroy".as_slice() {
        destroy_of(arguments)
    } else if name == b"take".as_slice() {
        take_of(arguments)
    } else if name == b"give".as_slice() {
        give_of(arguments)
    } else if name == b"reap".as_slice() {
        reap_of(arguments)
    } else if name == b"report".as_slice() {
        report_of(arguments)
    } else {
        Err(LineFault::Unknown)
    }
}
