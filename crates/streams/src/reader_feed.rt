ghost use Rattle.std.specs.Prelude.{◌≡◌, ◌^◌, true, false, [], None};
ghost use Rattle.std.specs.Option.{ForSome};

use crate::feed::{Feed, Stopped};
use std::io::Read;

/// The largest number of bytes that a feed made with [`ReaderFeed::new`] gives: 1 GiB.
const MAX_TRACE_BYTES: u64 = 1 << 30;

/// A feed over one of std's readers, with a limit on the number of its bytes: 1 GiB by default.
///
/// A failed read makes the pull fail, and so does an interrupted read. When the limit is used up, a pull returns 0 if the reader
/// is at its end, and fails otherwise.
#[derive(Debug, Drop)]
pub struct ReaderFeed<R: Read> {
    reader: R,
    room: u64,
    ended: bool,
    failed: bool,
    // The byte that was read after the limit was used up, if the reader still had one.
    beyond: Option<u8>,
    ghost kept: { failed ≡ false → beyond ≡ None },
    ghost whole: { ended ≡ true → ForSome (R.remaining reader) (λ rest. rest ≡ []) },
}

impl<R: Read> ReaderFeed<R> {
    /// Makes a feed that gives at most 1 GiB from this reader.
    pub fn new(reader: R) -> Self
        ensures remaining { ⟦<ReaderFeed<R> as Feed>⟧.remaining result ≡ R.remaining reader }
        ensures room { ⟦<ReaderFeed<R> as Feed>⟧.room_left result ≡ 2 ^ 30 }
        ensures not_ended { ⟦<ReaderFeed<R> as Feed>⟧.has_ended result ≡ false }
        ensures fine { ⟦<ReaderFeed<R> as Feed>⟧.has_failed result ≡ false }
    {
        ReaderFeed::with_room(reader, MAX_TRACE_BYTES)
    }

    /// Makes a feed that gives at most `room` bytes from this reader.
    pub fn with_room(reader: R, room: u64) -> Self
        ensures remaining { ⟦<ReaderFeed<R> as Feed>⟧.remaining result ≡ R.remaining reader }
        ensures room { ⟦<ReaderFeed<R> as Feed>⟧.room_left result ≡ room }
        ensures not_ended { ⟦<ReaderFeed<R> as Feed>⟧.has_ended result ≡ false }
        ensures fine { ⟦<ReaderFeed<R> as Feed>⟧.has_failed result ≡ false }
    {
        ReaderFeed {
            reader,
            room,
            ended: false,
            failed: false,
            beyond: None,
        }
    }
}

impl<R: Read> Feed for ReaderFeed<R> {
    ghost use Rattle.streams.specs.Moves.{put_back};

    ghost remaining = { λ s. put_back s.beyond (R.remaining s.reader) };

    ghost room_left = { λ s. s.room };

    ghost has_ended = { λ s. s.ended };

    ghost has_failed = { λ s. s.failed };

    fn pull(&mut self, into: &mut [u8]) -> Result<usize, Stopped> {
        if self.ended {
            return Ok(0);
        }
        if self.room == 0 {
            let mut probe = [0];
            return match self.reader.read(&mut probe) {
                Ok(0) => {
                    self.ended = true;
                    Ok(0)
                }
                Ok(_) => {
                    self.beyond = Some(probe[0]);
                    self.failed = true;
                    Err(Stopped)
                }
                Err(_) => {
                    self.failed = true;
                    Err(Stopped)
                }
            };
        }
        let most = (into.len() as u64).min(self.room) as usize;
        match self.reader.read(&mut into[..most]) {
            Ok(count) => {
                self.room -= count as u64;
                self.ended = count == 0;
                Ok(count)
            }
            Err(_) => {
                self.failed = true;
                Err(Stopped)
            }
        }
    }

    fn room(&self) -> u64 {
        self.room
    }

    fn ended(&self) -> bool {
        self.ended
    }

    fn failed(&self) -> bool {
        self.failed
    }
}
