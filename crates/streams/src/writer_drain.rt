ghost use Rattle.std.specs.Prelude.{◌≡◌, ℕ, ◌<◌, ◌≤◌, true, false, not, ◌&&◌, [], length, take, OnOk, IfOk, is_err, vec_capacity, vec_len};
ghost use Rattle.std.specs.Io.KnownBytes.{Appends, Keeps, WriteAppends, append_known};
ghost use Rattle.streams.specs.Held.{held_bytes, has_space};

use crate::drain::{Drain, Text};
use crate::feed::Stopped;
use crate::held::Held;
use std::io::Write;

/// A drain over one of std's writers. It may have a buffer, whose bytes are written at a send, at a flush, and when the next bytes
/// do not fit.
///
/// A write that takes no byte is a failure, and so is an interrupted write. If a write or a flush fails during a send, the
/// next push or `flush` fails. The drain then holds exactly the bytes that it took and the writer did not take. So no byte is lost
/// or written twice. The drain does not try to write these bytes again.
#[derive(Debug, Drop)]
pub struct WriterDrain<W> {
    writer: W,
    // The bytes that were taken and are not written yet. `None` means that there is no buffer, and each push is a write.
    held: Option<Held>,
    // True if bytes were written since the last flush.
    unsent: bool,
    // True if a write or a flush has failed during a send.
    send_failed: bool,
    failed: bool,
}

impl<W: Write> WriterDrain<W> {
    /// Makes a drain into this writer without a buffer: each push is one write.
    pub fn new(writer: W) -> Self
        ensures contents { ⟦<WriterDrain<W> as Drain>⟧.contents result ≡ W.contents writer }
        ensures empty { ⟦<WriterDrain<W> as Drain>⟧.held_back result ≡ [] }
        ensures fine { ⟦<WriterDrain<W> as Drain>⟧.has_failed result ≡ false }
        ensures sends { ⟦<WriterDrain<W> as Drain>⟧.has_failed_to_send result ≡ false }
        ensures unbuffered { result.held ≡ None }
    {
        WriterDrain {
            writer,
            held: None,
            unsent: false,
            send_failed: false,
            failed: false,
        }
    }

    /// Makes a drain into this writer that buffers up to `buffer.capacity()` bytes. `buffer` has to be empty.
    pub fn holding(writer: W, buffer: Vec<u8>) -> Self
        requires { vec_len buffer ≡ 0 }
        ensures contents { ⟦<WriterDrain<W> as Drain>⟧.contents result ≡ W.contents writer }
        ensures empty { ⟦<WriterDrain<W> as Drain>⟧.held_back result ≡ [] }
        ensures fine { ⟦<WriterDrain<W> as Drain>⟧.has_failed result ≡ false }
        ensures sends { ⟦<WriterDrain<W> as Drain>⟧.has_failed_to_send result ≡ false }
        ensures buffered { result.held ≡ Some (record { bytes = []; free = vec_capacity buffer }) }
    {
        WriterDrain {
            writer,
            held: Some(Held::new(buffer)),
            unsent: false,
            send_failed: false,
            failed: false,
        }
    }

    /// Writes the buffered bytes and flushes the writer. Returns `Stopped` if a send failed before, or if a write or the flush
    /// fails. No push or flush may have failed before.
    pub fn flush(&mut self) -> Result<(), Stopped>
        requires { ⟦<WriterDrain<W> as Drain>⟧.has_failed self.old ≡ false }
        ensures bytes { Keeps (⟦<WriterDrain<W> as Drain>⟧.contents self.old) (⟦<WriterDrain<W> as Drain>⟧.contents self.new) }
        // If the flush succeeds, the writer has all bytes that the drain took.
        ensures written { OnOk result (Keeps (⟦<WriterDrain<W> as Drain>⟧.contents self.old) (W.contents self.new.writer)) }
        ensures empty { OnOk result (⟦<WriterDrain<W> as Drain>⟧.held_back self.new ≡ []) }
        ensures flushed { OnOk result (self.new.unsent ≡ false) }
        ensures failed { ⟦<WriterDrain<W> as Drain>⟧.has_failed self.new ≡ is_err result }
        ensures stopped { ⟦<WriterDrain<W> as Drain>⟧.has_failed_to_send self.old ≡ true
            → (is_err result ≡ true) × (⟦<WriterDrain<W> as Drain>⟧.held_back self.new ≡ ⟦<WriterDrain<W> as Drain>⟧.held_back self.old) }
        ensures sends { ⟦<WriterDrain<W> as Drain>⟧.has_failed_to_send self.new ≡ ⟦<WriterDrain<W> as Drain>⟧.has_failed_to_send self.old }
    {
        if self.send_failed || self.write_held().is_err() || self.writer.flush().is_err() {
            self.failed = true;
            return Err(Stopped);
        }
        self.unsent = false;
        Ok(())
    }

    /// Returns the number of bytes that the drain took and that the writer has not taken.
    pub fn unwritten(&self) -> usize
        ensures { result ≡ length (⟦<WriterDrain<W> as Drain>⟧.held_back self.now) }
    {
        match &self.held {
            Some(held) => held.len(),
            None => 0,
        }
    }

    /// Returns true if a send has failed.
    pub fn send_failed(&self) -> bool
        ensures { result ≡ ⟦<WriterDrain<W> as Drain>⟧.has_failed_to_send self.now }
    {
        self.send_failed
    }

    /// Takes a prefix of `bytes`, which did not fit into the buffer. First writes the buffered bytes, so that the buffer is
    /// empty. Fails at once if a send has failed.
    #[cold]
    #[inline(never)]
    fn push_beyond(&mut self, bytes: &[u8]) -> Result<usize, Stopped>
        requires some { 0 < length bytes.now }
        requires fine { ⟦<WriterDrain<W> as Drain>⟧.has_failed self.old ≡ false }
        ensures count { IfOk result (λ n. (0 < n) × (n ≤ length bytes.now)) }
        // `unsent` is false afterwards only if it was false before and the writer took no byte.
        ensures unsent { self.new.unsent ≡ false → (self.old.unsent ≡ false) × Keeps (W.contents self.old.writer) (W.contents self.new.writer) }
        ensures bytes { WriteAppends (⟦<WriterDrain<W> as Drain>⟧.contents self.old) (⟦<WriterDrain<W> as Drain>⟧.contents self.new) result bytes.now }
        ensures failed { ⟦<WriterDrain<W> as Drain>⟧.has_failed self.new ≡ is_err result }
        ensures stopped { ⟦<WriterDrain<W> as Drain>⟧.has_failed_to_send self.old ≡ true
            → (is_err result ≡ true) × (⟦<WriterDrain<W> as Drain>⟧.held_back self.new ≡ ⟦<WriterDrain<W> as Drain>⟧.held_back self.old) }
        ensures sends { ⟦<WriterDrain<W> as Drain>⟧.has_failed_to_send self.new ≡ ⟦<WriterDrain<W> as Drain>⟧.has_failed_to_send self.old }
    {
        if self.send_failed || self.write_held().is_err() {
            self.failed = true;
            return Err(Stopped);
        }
        if let Some(held) = &mut self.held
            && held.append(bytes)
        {
            return Ok(bytes.len());
        }
        self.write_through(bytes)
    }

    /// Writes a prefix of these bytes straight to the writer and returns the length of the prefix. The buffer has to be empty.
    fn write_through(&mut self, bytes: &[u8]) -> Result<usize, Stopped>
        requires empty { held_bytes self.old.held ≡ [] }
        requires fine { ⟦<WriterDrain<W> as Drain>⟧.has_failed self.old ≡ false }
        ensures count { IfOk result (λ n. (0 < n) × (n ≤ length bytes.now)) }
        ensures unsent { self.new.unsent ≡ false → (self.old.unsent ≡ false) × Keeps (W.contents self.old.writer) (W.contents self.new.writer) }
        ensures bytes { WriteAppends (⟦<WriterDrain<W> as Drain>⟧.contents self.old) (⟦<WriterDrain<W> as Drain>⟧.contents self.new) result bytes.now }
        ensures failed { ⟦<WriterDrain<W> as Drain>⟧.has_failed self.new ≡ is_err result }
        ensures sends { ⟦<WriterDrain<W> as Drain>⟧.has_failed_to_send self.new ≡ ⟦<WriterDrain<W> as Drain>⟧.has_failed_to_send self.old }
    {
        match self.writer.write(bytes) {
            Ok(count) if count > 0 => {
                self.unsent = true;
                Ok(count)
            }
            _ => {
                self.failed = true;
                Err(Stopped)
            }
        }
    }

    /// Writes the buffered bytes, and flushes the writer if bytes were written since the last flush.
    fn send_held(&mut self) -> Result<(), Stopped>
        ensures bytes { Keeps (⟦<WriterDrain<W> as Drain>⟧.contents self.old) (⟦<WriterDrain<W> as Drain>⟧.contents self.new) }
        ensures empty { OnOk result (⟦<WriterDrain<W> as Drain>⟧.held_back self.new ≡ []) }
        ensures flushed { OnOk result (self.new.unsent ≡ false) }
        ensures failed { ⟦<WriterDrain<W> as Drain>⟧.has_failed self.new ≡ ⟦<WriterDrain<W> as Drain>⟧.has_failed self.old }
    {
        self.write_held()?;
        if self.unsent {
            self.unsent = false;
            return self.writer.flush().map_err(|_| Stopped);
        }
        Ok(())
    }

    /// Writes the buffered bytes. If a write fails, the unwritten bytes stay in the buffer.
    fn write_held(&mut self) -> Result<(), Stopped>
        ensures bytes { Keeps (⟦<WriterDrain<W> as Drain>⟧.contents self.old) (⟦<WriterDrain<W> as Drain>⟧.contents self.new) }
        ensures empty { OnOk result (held_bytes self.new.held ≡ []) }
        ensures unsent { self.new.unsent ≡ false → (self.old.unsent ≡ false) × Keeps (W.contents self.old.writer) (W.contents self.new.writer) }
        ensures failed { ⟦<WriterDrain<W> as Drain>⟧.has_failed self.new ≡ ⟦<WriterDrain<W> as Drain>⟧.has_failed self.old }
        ensures sends { ⟦<WriterDrain<W> as Drain>⟧.has_failed_to_send self.new ≡ ⟦<WriterDrain<W> as Drain>⟧.has_failed_to_send self.old }
    {
        let Some(held) = &mut self.held else {
            return Ok(());
        };
        let written = write_out(held.as_slice(), &mut self.writer);
        self.unsent = self.unsent || written > 0;
        held.remove_front(written);
        if held.is_empty() {
            Ok(())
        } else {
            Err(Stopped)
        }
    }
}

impl<W: Write> Drain for WriterDrain<W> {
    ghost contents = { λ s. append_known (W.contents s.writer) (held_bytes s.held) };

    ghost held_back = { λ s. held_bytes s.held };

    ghost has_failed = { λ s. s.failed };

    ghost has_failed_to_send = { λ s. s.send_failed };

    ghost is_roomy = { λ s. (not s.send_failed) && has_space s.held };

    #[inline(always)]
    fn push(&mut self, bytes: &[u8]) -> Result<usize, Stopped> {
        if !self.send_failed
            && let Some(held) = &mut self.held
            && held.append(bytes)
        {
            return Ok(bytes.len());
        }
        self.push_beyond(bytes)
    }

    #[inline(always)]
    fn has_space(&self) -> bool {
        match &self.held {
            Some(held) => !self.send_failed && held.has_space(),
            None => false,
        }
    }

    #[inline(always)]
    fn take_text<T: Text>(&mut self, text: T) -> usize {
        let Some(held) = &mut self.held else {
            unreachable!()
        };
        held.append_text(text)
    }

    fn send(&mut self)
        ensures bytes { Keeps (⟦<WriterDrain<W> as Drain>⟧.contents self.old) (⟦<WriterDrain<W> as Drain>⟧.contents self.new) }
        ensures failed { ⟦<WriterDrain<W> as Drain>⟧.has_failed self.new ≡ ⟦<WriterDrain<W> as Drain>⟧.has_failed self.old }
        ensures stopped { ⟦<WriterDrain<W> as Drain>⟧.has_failed self.old ≡ true
            → ⟦<WriterDrain<W> as Drain>⟧.held_back self.new ≡ ⟦<WriterDrain<W> as Drain>⟧.held_back self.old }
        ensures sends { ⟦<WriterDrain<W> as Drain>⟧.has_failed_to_send self.old ≡ true
            → (⟦<WriterDrain<W> as Drain>⟧.has_failed_to_send self.new ≡ true)
            × (⟦<WriterDrain<W> as Drain>⟧.held_back self.new ≡ ⟦<WriterDrain<W> as Drain>⟧.held_back self.old) }
        // If nothing has failed, the writer has all bytes that the drain took.
        ensures sent { ⟦<WriterDrain<W> as Drain>⟧.has_failed self.old ≡ false → ⟦<WriterDrain<W> as Drain>⟧.has_failed_to_send self.new ≡ false
            → ⟦<WriterDrain<W> as Drain>⟧.held_back self.new ≡ [] }
        ensures flushed { ⟦<WriterDrain<W> as Drain>⟧.has_failed self.old ≡ false → ⟦<WriterDrain<W> as Drain>⟧.has_failed_to_send self.new ≡ false
            → self.new.unsent ≡ false }
    {
        if !self.failed && !self.send_failed {
            self.send_failed = self.send_held().is_err();
        }
    }

    fn failed(&self) -> bool {
        self.failed
    }
}

/// Writes the bytes until all are written or a write fails, and returns how many were written.
fn write_out<W: Write>(bytes: &[u8], writer: &mut W) -> usize
    ensures bound { result ≤ length bytes.now }
    ensures bytes { Appends (W.contents writer.old) (W.contents writer.new) (take result bytes.now) }
{
    let mut written = 0;
    while written < bytes.len() {
        match writer.write(&bytes[written..]) {
            Ok(count) if count > 0 => written += count,
            _ => return written,
        }
    }
    written
}
