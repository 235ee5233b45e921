//! Reads a text one line at a time.

ghost use Rattle.std.specs.Prelude.{◌≡◌, ℕ, ◌^◌, ◌<◌, List, ◌++◌, false, is_err, Some, Ok, IfSome, IfNone};
ghost use Rattle.trace_check.specs.Gathered.{Gathers};
ghost use Rattle.trace_check.specs.Reading.{HasGiven, IsNextReading, IsPartAtOk};

use crate::events::event_of;
use crate::gathered::Gathered;
use model_core::limits::MAX_BYTES;
use quick_core::read_request;
use std::marker::Model;
use streams::{Feed, Stopped, line_end};
use words_core::Event;

/// The largest number of bytes in one pull.
const PIECE_BYTES: usize = 65_536;

/// A reader of the lines of a feed.
#[derive(Debug, Drop)]
pub struct LineReader<F: Feed> {
    feed: F,
    // The bytes from `start` to `end` have been pulled but not yet read.
    piece: [u8; PIECE_BYTES],
    start: usize,
    end: usize,
}

impl<F: Feed> Model for LineReader<F> {
    ghost use Rattle.std.specs.Prelude.{◌≡◌, ◌+◌, ◌-◌, ◌≤◌, true, take, drop, length};
    ghost use Rattle.std.specs.Io.KnownBytes.{prepend_known};
    ghost use Rattle.trace_check.specs.Reading.{Source};

    ghost Value = { Source };

    ghost view = { λ a. record {
      left = prepend_known (drop a.start (take a.end a.piece)) (F.remaining a.feed);
      room = (a.end - a.start) + F.room_left a.feed;
      ended = F.has_ended a.feed;
      failed = F.has_failed a.feed;
    } };

    // Once the feed has ended, no bytes are left in the piece.
    ghost invariant = { λ a. (a.start ≤ a.end) × (a.end ≤ length a.piece) × (F.has_ended a.feed ≡ true → a.start ≡ a.end) };
}

impl<F: Feed> LineReader<F> {
    /// Returns a reader of this feed.
    pub fn new(feed: F) -> Self
        ensures left { result.left ≡ F.remaining feed }
        ensures room { result.room ≡ F.room_left feed }
        ensures ended { result.ended ≡ F.has_ended feed }
        ensures fine { result.failed ≡ F.has_failed feed }
    {
        let piece = [0; PIECE_BYTES];
        LineReader {
            feed,
            piece,
            start: 0,
            end: 0,
        }
    }

    /// Returns an upper bound on the number of bytes that are left.
    pub fn room(&self) -> u128
        ensures value { result ≡ self.now.room }
        ensures most { result < 2 ^ 65 }
    {
        (self.end - self.start) as u128 + u128::from(self.feed.room())
    }

    /// Reads the next line, with its LF if it has one, and adds it to `into`. Returns whether it has an LF. The text after the
    /// last LF is read as a line without an LF, and may be empty. Returns `Err` if the feed fails.
    pub fn next<const N: usize>(&mut self, into: &mut Gathered<N>) -> Result<bool, Stopped>
        requires fine { self.old.failed ≡ false }
        // `part` is what was read.
        ensures taken { (part : List ℕ) × HasGiven self.old self.new part × IsPartAtOk result part self.new
            × ((front : List ℕ) → Gathers N front into.old → Gathers N (front ++ part) into.new) }
        ensures failed { self.new.failed ≡ is_err result }
    {
        loop {
            let held = &self.piece[self.start..self.end];
            if let Some(at) = line_end(held) {
                into.add(&held[..at + 1]);
                self.start += at + 1;
                return Ok(true);
            }
            into.add(held);
            self.start = self.end;
            let count = self.feed.pull(&mut self.piece)?;
            self.start = 0;
            self.end = count;
            if count == 0 {
                return Ok(false);
            }
        }
    }

    /// Reads the next line of a trace, adds it to `into`, and returns its event. Returns `None` and reads nothing if the line is
    /// not a quick request, which is a request that `quick_core` reads. It also returns `None` if too few bytes have been pulled
    /// for `quick_core` to read the line.
    #[inline(always)]
    pub fn next_event<const N: usize>(&mut self, into: &mut Gathered<N>) -> Option<Event>
        ensures reading { IfSome result (λ event. (part : List ℕ) × HasGiven self.old self.new part
            × IsNextReading (Some (Ok (Some event))) part self.new
            × ((front : List ℕ) → Gathers N front into.old → Gathers N (front ++ part) into.new)) }
        ensures less { IfSome result (λ _. self.new.room < self.old.room) }
        ensures failed { self.new.failed ≡ self.old.failed }
        ensures none { IfNone result ((self.new ≡ self.old) × (into.new ≡ into.old)) }
    {
        let mut buffer = [0; MAX_BYTES];
        let held = &self.piece[self.start..self.end];
        let line = read_request(held, &mut buffer)?;
        into.add(&held[..line.len]);
        self.start += line.len;
        Some(event_of(line))
    }
}
