//! Writes the line of a finding.

ghost use Rattle.std.specs.Prelude.{◌≡◌, ℕ, List, OnOk, Some, flat_map, option_copied, take};
ghost use Rattle.std.specs.Char.Escape.{escape_ascii};
ghost use Rattle.std.specs.Io.KnownBytes.{Appends};
ghost use Rattle.std.specs.List.{list_all};
ghost use Rattle.std.specs.Str.Lines.{strip_carriage_return};
ghost use Rattle.trace_check.specs.Checking.{HasRead};
ghost use Rattle.trace_check.specs.Reading.{without_line_feed};
ghost use Rattle.partcheck.specs.Telling.{AppendsFinding, begin_text, breach_text, counted_word, cut_mark, excerpt_of};
ghost use Rattle.partcheck.specs.Telling.{excerpt_text, has_filled_ends, if_read, is_plain_text, is_reply_byte, is_shown_plain};
ghost use Rattle.partcheck.specs.Telling.{kept_text, plain_byte, trace_line};

use crate::reasons::write_reason;
use std::io::{self, Write};
use trace_check::{Breach, Finding, Shown};

/// The largest number of bytes of a trace line that are printed. A line with more bytes has the fault `Long`.
const MAX_LINE_BYTES: usize = 255;

/// The largest number of bytes of a reply that are printed.
const MAX_REPLY_BYTES: usize = 200;

/// Writes the line of a finding on a machine with this number of tenants, and flushes.
pub fn write_finding<W: Write>(
    out: &mut W,
    finding: &Finding,
    shown: &Shown,
    tenants: u32,
) -> io::Result<()>
    ensures written { OnOk result (AppendsFinding finding.now shown.now tenants (W.contents out.old) (W.contents out.new)) }
{
    write_line(out, finding, shown, tenants)?;
    out.flush()
}

fn write_line<W: Write>(
    out: &mut W,
    finding: &Finding,
    shown: &Shown,
    tenants: u32,
) -> io::Result<()>
    ensures { OnOk result (AppendsFinding finding.now shown.now tenants (W.contents out.old) (W.contents out.new)) }
{
    match finding {
        Finding::Kept(lines) => write_kept(out, *lines, tenants),
        Finding::Broken(breach) => write_breach(out, breach, shown),
    }
}

fn write_kept<W: Write>(out: &mut W, lines: u128, tenants: u32) -> io::Result<()>
    ensures { OnOk result (Appends (W.contents out.old) (W.contents out.new) (kept_text lines tenants)) }
{
    let lines_word = counted("line", "lines", lines);
    let tenants_word = counted("tenant", "tenants", u128::from(tenants));
    writeln!(out, "kept: {lines} {lines_word}, {tenants} {tenants_word}")
}

/// Returns `one` if the count is 1, and `several` otherwise.
fn counted<'a>(one: &'a str, several: &'a str, count: u128) -> &'a str
    ensures { result.now ≡ counted_word one.entry.now several.entry.now count }
{
    if count == 1 { one } else { several }
}

fn write_breach<W: Write>(out: &mut W, breach: &Breach, shown: &Shown) -> io::Result<()>
    ensures { OnOk result ((trace_text reply_text : List ℕ) → HasRead trace_text reply_text shown.now
        → Appends (W.contents out.old) (W.contents out.new) (breach_text breach.now trace_text reply_text shown.now.reason)) }
{
    let Breach {
        line,
        reply,
        promise,
    } = breach;
    write!(out, "line {line}, reply {reply}: ")?;
    let trace_text = line_read(shown.line.front());
    write_shown(out, trace_text, MAX_LINE_BYTES, "no more lines")?;
    out.write_all(b", answered ")?;
    let reply_text = lines_read(shown.reply.front());
    write_shown(out, reply_text, MAX_REPLY_BYTES, "nothing")?;
    write!(out, ": {promise}: ")?;
    write_reason(out, *promise, &shown.reason)?;
    out.write_all(b"\n")
}

/// Returns a line of a trace without the LF at its end, and without the CR in front of this LF. Returns `None` if nothing was
/// read.
fn line_read(text: &[u8]) -> Option<&[u8]>
    ensures { option_copied result ≡ if_read trace_line text.now }
{
    match text {
        [] => None,
        [line @ .., b'\n'] => Some(without_return(line)),
        line => Some(line),
    }
}

fn without_return(line: &[u8]) -> &[u8]
    ensures { result.now ≡ strip_carriage_return line.now }
{
    match line {
        [rest @ .., b'\r'] => rest,
        _ => line,
    }
}

/// Returns the lines of a reply without the last line feed. Returns `None` if nothing was read.
fn lines_read(text: &[u8]) -> Option<&[u8]>
    ensures { option_copied result ≡ if_read without_line_feed text.now }
{
    match text {
        [] => None,
        [lines @ .., b'\n'] => Some(lines),
        lines => Some(lines),
    }
}

/// Writes the first `most` bytes of a text, with a mark if the text is cut. Writes `none` if there is no text.
fn write_shown<W: Write>(
    out: &mut W,
    text: Option<&[u8]>,
    most: usize,
    none: &str,
) -> io::Result<()>
    ensures { OnOk result (Appends (W.contents out.old) (W.contents out.new) (excerpt_text none.now most (option_copied text.entry))) }
{
    match text {
        None => out.write_all(none.as_bytes()),
        Some(text) => write_excerpt(out, text, most, none),
    }
}

fn write_excerpt<W: Write>(out: &mut W, text: &[u8], most: usize, none: &str) -> io::Result<()>
    ensures { OnOk result (Appends (W.contents out.old) (W.contents out.new) (excerpt_of none.now most text.now)) }
{
    write_begin(out, text, front(text, most), none)?;
    out.write_all(cut_mark(most < text.len()).as_bytes())
}

/// Returns the mark at the end of a shown text: `…` if the text is cut, and nothing otherwise.
fn cut_mark(is_cut: bool) -> &'static str
    ensures { result.now ≡ cut_mark is_cut }
{
    if is_cut { "…" } else { "" }
}

/// Returns the first `most` bytes of a text, or the whole text if it is shorter.
fn front(text: &[u8], most: usize) -> &[u8]
    ensures { result.now ≡ take most text.now }
{
    &text[..most.min(text.len())]
}

/// Writes `begin`, the beginning of a text. The lines of a plain text are joined by ` / `. A text is escaped and in quotes if it
/// is not plain, or if it equals `none`, the words that are shown if there is no text. So no text looks like these words or like
/// a finding, and two texts look alike only if both are cut.
fn write_begin<W: Write>(out: &mut W, text: &[u8], begin: &[u8], none: &str) -> io::Result<()>
    ensures { OnOk result (Appends (W.contents out.old) (W.contents out.new) (begin_text none.now text.now begin.now)) }
{
    if is_shown_plain(text, none) {
        return write_plain(out, begin);
    }
    out.write_all(b"'")?;
    write_escaped(out, begin)?;
    out.write_all(b"'")
}

/// Returns whether a text is plain and differs from `none`, the words that are shown if there is no text.
fn is_shown_plain(text: &[u8], none: &str) -> bool
    ensures { result ≡ is_shown_plain none.now text.now }
{
    is_plain(text) && text != none.as_bytes()
}

/// Returns whether a text is not empty, has only bytes of commands and replies, and has no blank at either end.
fn is_plain(text: &[u8]) -> bool
    ensures { result ≡ is_plain_text text.now }
{
    has_filled_ends(text) && has_reply_bytes(text)
}

fn has_filled_ends(text: &[u8]) -> bool
    ensures { result ≡ has_filled_ends text.now }
{
    !matches!(text, [] | [b' ', ..] | [.., b' '])
}

fn has_reply_bytes(text: &[u8]) -> bool
    ensures { result ≡ list_all is_reply_byte text.now }
{
    text.iter().all(|byte| {
        matches!(*byte, b'0'..=b'9' | b'A'..=b'Z' | b'a'..=b'z' | b' ' | b'!' | b'>' | b'\n')
    })
}

/// Writes the lines of a plain text, joined by ` / `.
fn write_plain<W: Write>(out: &mut W, text: &[u8]) -> io::Result<()>
    ensures { OnOk result (Appends (W.contents out.old) (W.contents out.new) (flat_map plain_byte text.now)) }
{
    for byte in text {
        match *byte {
            b'\n' => out.write_all(b" / ")?,
            byte => out.write_all(&[byte])?,
        }
    }
    Ok(())
}

/// Writes the bytes of a quoted text, escaped.
fn write_escaped<W: Write>(out: &mut W, text: &[u8]) -> io::Result<()>
    ensures { OnOk result (Appends (W.contents out.old) (W.contents out.new) (flat_map escape_ascii text.now)) }
{
    for byte in text {
        write_escape(out, *byte)?;
    }
    Ok(())
}

fn write_escape<W: Write>(out: &mut W, byte: u8) -> io::Result<()>
    ensures { OnOk result (Appends (W.contents out.old) (W.contents out.new) (escape_ascii byte)) }
{
    let mut rest = byte.escape_ascii();
    'escape: while let Some(escaped) = rest.next() {
        out.write_all(&[escaped])?;
    }
    Ok(())
}
