//! Runs a trace on a new machine, and writes its picture or its figures.

ghost use Rattle.std.specs.Prelude.{◌≡◌, ◌⊎◌, ℕ, Bool, List, Some, true, false, length, OnOk};
ghost use Rattle.replay_core.specs.Ending.{IsRunToEnd, NamesEndFailed};
ghost use Rattle.command_line.specs.declared.outcome.Outcome.TheVariants as Outcome;
ghost use Rattle.words_core.specs.Cutting.{lines_of_trace};
ghost use Rattle.world_core.specs.Output.{events_of};
ghost use Rattle.picture_svg.specs.Texts.{AppendsText, WritesText};
ghost use Rattle.framemap.specs.Drawing.{HasReadTrace, IsDrawing, IsDrawnText};
ghost use Rattle.framemap.specs.Watching.{HasWatched};

use crate::figures::write_figures;
use crate::peaks::Peaks;
use crate::settings::Settings;
use crate::watched::Watched;
use command_line::Outcome;
use frame_picture::history::History;
use kernel_core::Kernel;
use picture_svg::picture::Picture;
use replay_core::{EndFailed, Feed, WriterDrain, do_lines};
use std::alloc::Global;
use std::io::{self, Write};

/// How a run ended, and the number of events in the lines of the trace.
#[derive(Debug, Drop)]
pub struct Drawn {
    pub outcome: Outcome,
    pub events: u64,
}

impl Drawn {
    /// Returns the result of a run that draws nothing and has this outcome. Its events are not counted.
    pub fn at_once(outcome: Outcome) -> Drawn
        ensures { result.outcome ≡ outcome }
    {
        Drawn { outcome, events: 0 }
    }

    /// Returns whether the picture or table was written and the trace had no event.
    pub fn is_of_nothing(&self) -> bool
        ensures done { result ≡ true → self.now.outcome ≡ Outcome.Done }
        ensures events { result ≡ true → self.now.events ≡ 0 }
        ensures nothing { self.now.outcome ≡ Outcome.Done → self.now.events ≡ 0 → result ≡ true }
    {
        matches!(self.outcome, Outcome::Done) && self.events == 0
    }
}

/// The distance in pixels by which the word `refused` is moved down, so that it does not overlap the lowest number of the axis.
const LABEL_GAP: u32 = 4;

/// Runs a trace on a new machine with these settings, and writes the picture of the machine's frames over the lines, or the table
/// of the figures. If the trace cannot be read to its end, nothing is written.
pub fn run<F: Feed, W: Write>(
    alloc: Global,
    settings: &Settings,
    feed: &mut F,
    writer: &mut W,
) -> Drawn
    requires { F.has_failed feed.old ≡ false }
    ensures read { HasReadTrace result.outcome (F.has_ended feed.new) (F.has_failed feed.new) }
    ensures events { (trace : List ℕ) → F.remaining feed.old ≡ Some trace → result.outcome ≡ Outcome.Done
        → result.events ≡ length (events_of (lines_of_trace trace)) }
    ensures drawn { result.outcome ≡ Outcome.Done
        → AppendsText (W.contents writer.old) (W.contents writer.new) (IsDrawing settings.now (F.remaining feed.old)) }
    ensures nothing { (result.outcome ≡ Outcome.Unreadable) ⊎ (result.outcome ≡ Outcome.NoMemory) → writer.new ≡ writer.old }
{
    let Ok(mut kernel) = Kernel::boot(alloc, settings.machine.config) else {
        return Drawn::at_once(Outcome::NoMemory);
    };
    let Ok(history) = History::new(alloc, &kernel, settings.columns) else {
        return Drawn::at_once(Outcome::NoMemory);
    };
    let Ok(mut picture) = Picture::new(alloc, &history, settings.machine.only) else {
        return Drawn::at_once(Outcome::NoMemory);
    };
    picture.set_label_gap(LABEL_GAP);
    // The picture shows no peaks, so without `--figures` there are peaks of no tenant.
    let tenants = if settings.figures {
        history.tenants()
    } else {
        0
    };
    let Ok(peaks) = Peaks::new(alloc, tenants, settings.columns) else {
        return Drawn::at_once(Outcome::NoMemory);
    };
    let mut watched = Watched {
        history,
        peaks,
        named: None,
        events: 0,
    };
    match watch(&mut kernel, feed, &mut watched) {
        Ok(()) => {}
        Err(EndFailed::Feed) => return Drawn::at_once(Outcome::Unreadable),
        Err(EndFailed::Drain) => return Drawn::at_once(Outcome::Unwritable),
    }
    let outcome = match write(settings, &watched, &mut picture, writer) {
        Ok(()) => Outcome::Done,
        Err(_) => Outcome::Unwritable,
    };
    Drawn {
        outcome,
        events: watched.events,
    }
}

/// Writes the picture of a history, or the table of its figures.
fn write<W: Write>(
    settings: &Settings,
    watched: &Watched,
    picture: &mut Picture,
    writer: &mut W,
) -> io::Result<()>
    ensures { WritesText result (W.contents writer.old) (W.contents writer.new)
        (IsDrawnText settings.now watched.now.history watched.now.peaks picture.old) }
{
    let history = &watched.history;
    if settings.figures {
        let (first, end) = match settings.machine.only {
            Some(t) => (t, t.saturating_add(1)),
            None => (0, history.tenants() as u8),
        };
        return write_figures(writer, history, &watched.peaks, first, end);
    }
    let name = settings.file.as_deref().map(file_name);
    picture.draw(history, name, writer)
}

/// Returns the part of a path after its last slash.
fn file_name(path: &str) -> &str {
    match path.rsplit_once('/') {
        Some((_, name)) => name,
        None => path,
    }
}

/// Runs all lines of a trace, and keeps the history of the machine's states. Fails if the trace cannot be read to its end.
fn watch<F: Feed>(kernel: &mut Kernel, feed: &mut F, watched: &mut Watched) -> Result<(), EndFailed>
    requires fine { F.has_failed feed.old ≡ false }
    requires none { watched.old.events ≡ 0 }
    ensures watched { (trace : List ℕ) → F.remaining feed.old ≡ Some trace
        → OnOk result (HasWatched (lines_of_trace trace) watched.old watched.new) }
    ensures ended { IsRunToEnd result (F.has_ended feed.new) }
    ensures failed { (is_drain : Bool) × NamesEndFailed result (F.has_failed feed.new) is_drain }
{
    let mut unheard = WriterDrain::new(io::sink());
    // Only for the proof: the feed has at most `room` bytes, so the trace has at most `room` events.
    let _most = feed.room();
    do_lines(kernel, watched, feed, &mut unheard)?;
    watched.peaks.end(&mut watched.history, kernel);
    Ok(())
}
