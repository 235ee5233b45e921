//! A limit on the number of lines of a trace.

ghost use Rattle.std.specs.Prelude.{◌≡◌, ◌+◌, ◌-◌, ◌<◌, ◌≤◌, true, false, ◌==◌, count_by, length, take, IfOk, OnErr, is_err};
ghost use Rattle.std.specs.Io.KnownBytes.{ReadConsumes};
ghost use Rattle.streams.specs.Moves.{moved_count};

use crate::feed::{Feed, Stopped};
use std::simd::prelude::*;

/// A feed that gives what an inner feed gives, with a limit on the number of line feeds. Once the limit is reached or exceeded,
/// the next pull fails unless the inner feed has ended.
#[derive(Debug, Drop)]
pub struct LineLimit<F: Feed> {
    feed: F,
    /// The number of line feeds that are left until the limit is reached; 0 if it is reached or exceeded.
    left: u64,
    failed: bool,
    ghost fine: { failed ≡ false → F.has_failed feed ≡ false },
}

impl<F: Feed> LineLimit<F> {
    /// Makes a feed that gives what `feed` gives, up to and including the pull that reaches or exceeds `limit` line feeds. No
    /// pull of `feed` may have failed.
    pub fn new(feed: F, limit: u64) -> Self
        requires { F.has_failed feed ≡ false }
        ensures remaining { ⟦<LineLimit<F> as Feed>⟧.remaining result ≡ F.remaining feed }
        ensures room { ⟦<LineLimit<F> as Feed>⟧.room_left result ≡ F.room_left feed }
        ensures ended { ⟦<LineLimit<F> as Feed>⟧.has_ended result ≡ F.has_ended feed }
        ensures fine { ⟦<LineLimit<F> as Feed>⟧.has_failed result ≡ false }
        ensures left { result.left ≡ limit }
    {
        LineLimit {
            feed,
            left: limit,
            failed: false,
        }
    }
}

impl<F: Feed> Feed for LineLimit<F> {
    ghost remaining = { λ s. F.remaining s.feed };

    ghost room_left = { λ s. F.room_left s.feed };

    ghost has_ended = { λ s. F.has_ended s.feed };

    ghost has_failed = { λ s. s.failed };

    fn pull(&mut self, into: &mut [u8]) -> Result<usize, Stopped>
        requires space { 0 < length into.old }
        requires fine { ⟦<LineLimit<F> as Feed>⟧.has_failed self.old ≡ false }
        ensures count { moved_count result ≤ length into.new }
        ensures room { ⟦<LineLimit<F> as Feed>⟧.room_left self.new + moved_count result ≡ ⟦<LineLimit<F> as Feed>⟧.room_left self.old }
        ensures bytes { ReadConsumes (⟦<LineLimit<F> as Feed>⟧.remaining self.old) (⟦<LineLimit<F> as Feed>⟧.remaining self.new) result into.new }
        ensures ended { IfOk result (λ n. ⟦<LineLimit<F> as Feed>⟧.has_ended self.new ≡ (n == 0)) }
        ensures stays { ⟦<LineLimit<F> as Feed>⟧.has_ended self.old ≡ true → result ≡ Ok 0 }
        ensures not_yet { OnErr result (⟦<LineLimit<F> as Feed>⟧.has_ended self.new ≡ ⟦<LineLimit<F> as Feed>⟧.has_ended self.old) }
        ensures failed { ⟦<LineLimit<F> as Feed>⟧.has_failed self.new ≡ is_err result }
        // Each line feed that is given lowers `left` by one, but not below 0.
        ensures left { self.new.left ≡ self.old.left - count_by (λ b. b == 10) (take (moved_count result) into.new) }
        // At the limit the pull fails unless the inner feed has ended. Below the limit it fails if and only if the inner feed
        // fails.
        ensures at_limit { self.old.left ≡ 0 → ⟦<LineLimit<F> as Feed>⟧.has_ended self.old ≡ false → is_err result ≡ true }
        ensures below { 0 < self.old.left → F.has_failed self.new.feed ≡ is_err result }
    {
        if self.left == 0 && !self.feed.ended() {
            self.failed = true;
            return Err(Stopped);
        }
        let Ok(count) = self.feed.pull(into) else {
            self.failed = true;
            return Err(Stopped);
        };
        let given = line_feeds(&into[..count]) as u64;
        self.left = self.left.saturating_sub(given);
        Ok(count)
    }

    fn room(&self) -> u64 {
        self.feed.room()
    }

    fn ended(&self) -> bool {
        self.feed.ended()
    }

    fn failed(&self) -> bool {
        self.failed
    }
}

/// Returns the number of line feeds among the bytes.
fn line_feeds(bytes: &[u8]) -> usize
    ensures { result ≡ count_by (λ b. b == 10) bytes.now }
{
    let mut count = 0;
    let mut rest = bytes;
    'lanes: while rest.len() >= 16 {
        let (lanes, after) = rest.split_at(16);
        count += line_feeds_in_lanes(lanes);
        rest = after;
    }
    count + rest.iter().filter(|byte| **byte == b'\n').count()
}

/// Returns the number of line feeds among 16 bytes, with one comparison.
#[inline(always)]
fn line_feeds_in_lanes(bytes: &[u8]) -> usize
    requires { length bytes.now ≡ 16 }
    ensures { result ≡ count_by (λ b. b == 10) bytes.now }
{
    let lanes = u8x16::from_slice(bytes);
    lanes.simd_eq(u8x16::splat(b'\n')).to_bitmask().count_ones() as usize
}
