//! Consecutive bytes of a stream, which grow at the back and go away at the front.
ghost use Rattle.std.specs.Prelude.{◌≡◌, ◌+◌, ◌-◌, ◌<◌, ◌≤◌, ◌++◌, length, take, drop, IfOk, OnOk, OnErr, IsTrue, ◌↔◌};
ghost use Rattle.qs_ranges.specs.Numbers.{MAX_VARINT};
ghost use Rattle.qs_chunks.specs.Chunks.{AreOne, Piece, end_of_piece, longer, rest_of, shorter};

use qs_ranges::NoMemory;
use std::marker::Model;

/// The first `start` bytes of the vector are read: dropping them at once would move all others for each read.
#[derive(Drop)]
pub(crate) struct Chunk {
    offset: u64,
    start: usize,
    bytes: Vec<u8>,
}

impl Model for Chunk {
    ghost use Rattle.std.specs.Prelude.{◌+◌, ◌-◌, ◌≤◌, length, drop};
    ghost use Rattle.qs_ranges.specs.Numbers.{MAX_VARINT};
    ghost use Rattle.qs_chunks.specs.Chunks.{Piece, piece_code};

    ghost Value = { Piece };

    ghost coded = { piece_code };

    ghost view = { λ c. record { offset = c.offset; bytes = drop c.start c.bytes.items } };

    ghost invariant = { λ c. (c.start ≤ length c.bytes.items) × (c.offset + (length c.bytes.items - c.start) ≤ MAX_VARINT) };
}

impl Chunk {
    /// In a buffer whose memory is used again, so that bytes in order take none anew.
    pub(crate) fn new(mut buffer: Vec<u8>, offset: u64, bytes: &[u8]) -> Result<Self, NoMemory>
        requires { offset + length bytes.now ≤ MAX_VARINT }
        ensures { IfOk result (λ chunk. chunk ≡ record { offset = offset; bytes = bytes.now }) }
    {
        buffer.clear();
        buffer.extend_from_slice(bytes)?;
        Ok(Chunk {
            offset,
            start: 0,
            bytes: buffer,
        })
    }

    pub(crate) fn offset(&self) -> u64
        ensures { result ≡ self.now.offset }
    {
        self.offset
    }

    /// The offset after the last.
    pub(crate) fn end(&self) -> u64
        ensures value { result ≡ end_of_piece self.now }
        ensures in_range { result ≤ MAX_VARINT }
    {
        self.offset + self.len() as u64
    }

    pub(crate) fn len(&self) -> usize
        ensures { result ≡ length self.now.bytes }
    {
        self.bytes.len() - self.start
    }

    /// Whether bytes are those of the chunk, at each offset that both have.
    pub(crate) fn agrees(&self, offset: u64, bytes: &[u8]) -> bool
        requires { offset + length bytes.now ≤ MAX_VARINT }
        ensures { IsTrue result ↔ AreOne self.now.offset self.now.bytes offset bytes.now }
    {
        are_one(self.offset, &self.bytes[self.start..], offset, bytes)
    }

    /// Copies the first bytes out.
    pub(crate) fn copy_front(&self, into: &mut [u8])
        requires { length into.old ≤ length self.now.bytes }
        ensures { into.new ≡ take (length into.old) self.now.bytes }
    {
        let end = self.start + into.len();
        into.copy_from_slice(&self.bytes[self.start..end]);
    }

    /// Adds bytes at the back.
    pub(crate) fn append(&mut self, bytes: &[u8]) -> Result<(), NoMemory>
        requires { end_of_piece self.old + length bytes.now ≤ MAX_VARINT }
        ensures ok { OnOk result (self.new ≡ longer self.old bytes.now) }
        ensures err { OnErr result (self.new ≡ self.old) }
    {
        self.bytes.extend_from_slice(bytes)?;
        Ok(())
    }

    /// Takes the last bytes away.
    pub(crate) fn truncate(&mut self, count: usize)
        requires { count ≤ length self.old.bytes }
        ensures { self.new ≡ shorter self.old count }
    {
        self.bytes.truncate(self.bytes.len() - count);
    }

    /// The memory of read bytes is freed once it is at least as long as the rest, so that each byte moves once on average.
    pub(crate) fn skip(&mut self, count: usize)
        requires { count ≤ length self.old.bytes }
        ensures { self.new ≡ rest_of self.old count }
    {
        self.offset += count as u64;
        let start = self.start + count;
        if start >= self.bytes.len() - start {
            self.bytes.drain(..start);
            self.start = 0;
        } else {
            self.start = start;
        }
    }

    /// The buffer, to be used again.
    pub(crate) fn into_buffer(self) -> Vec<u8> {
        self.bytes
    }
}

// Whether they agree where they overlap.
fn are_one(at: u64, own: &[u8], offset: u64, bytes: &[u8]) -> bool
    requires own { at + length own.now ≤ MAX_VARINT }
    requires bytes { offset + length bytes.now ≤ MAX_VARINT }
    ensures { IsTrue result ↔ AreOne at own.now offset bytes.now }
{
    let from = at.max(offset);
    let to = (at + own.len() as u64).min(offset + bytes.len() as u64);
    if from >= to {
        return true;
    }
    let ours = &own[(from - at) as usize..(to - at) as usize];
    let theirs = &bytes[(from - offset) as usize..(to - offset) as usize];
    ours == theirs
}
