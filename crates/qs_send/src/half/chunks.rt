//! Which chunk of a half goes out next, and what it holds.
ghost use Rattle.std.specs.Prelude.{◌≡◌, ◌+◌, ◌≤◌, ◌<◌, ◌↔◌, ◌++◌, IsTrue, ℕ, length, IfSome, IfNone};
ghost use Rattle.qs_ranges.specs.Numbers.{MAX_VARINT, IsRunFrom, EndsBefore, IsLeastFrom};
ghost use Rattle.qs_wire.specs.Varint.{short_len};
ghost use Rattle.qs_send.specs.Chunks.{has_unsent, IsNextChunk, HasNoChunk, IsHeldByRoom, HasBytes, WasSent, offset_len, frame_len};
ghost use Rattle.qs_send.specs.Lane.{bytes_of};

use super::SendHalf;
use crate::fit::longest_fit;
use crate::parts::Chunk;
use qs_wire::varint_len;

impl SendHalf {
    /// The longest chunk from the lowest due offset on whose STREAM frame takes at most `room` bytes, with `fresh` bytes of connection
    /// credit left for new bytes. It carries the FIN if that is due and it reaches the last written byte. `None` if no chunk may go.
    pub fn next_chunk(&self, room: usize, fresh: u64) -> Option<Chunk>
        ensures found { IfSome result (IsNextChunk self.now room fresh) }
        ensures none { IfNone result (HasNoChunk self.now room fresh) }
        ensures kept { IfSome result (HasBytes self.now.lane) }
    {
        self.learn_lawful();
        let Some((offset, end)) = self.offsets.due_run() else {
            return self.end_chunk(room);
        };
        let head = self.head_len(offset);
        if room <= head {
            return None;
        }
        let most = end
            .min(self.limit())
            .min(self.sent_end().saturating_add(fresh));
        if most <= offset {
            return None;
        }
        let len = longest_fit(room - head, most - offset);
        if len == 0 {
            return None;
        }
        let fin = self.end_due() && offset + len == self.written();
        Some(Chunk {
            offset,
            len: len as usize,
            fin,
        })
    }

    /// Whether the room alone holds a chunk back: one is due, below the stream's limit and within the credit, and its frame is longer than
    /// `room`. Then a packet is full; else no room would be enough, and the next stream may have a turn.
    pub fn is_held_by_room(&self, room: usize, fresh: u64) -> bool
        ensures { IsTrue result ↔ IsHeldByRoom self.now room fresh }
    {
        self.learn_lawful();
        match self.next_chunk(usize::MAX, fresh) {
            Some(chunk) => self.frame_len(chunk) > room,
            None => false,
        }
    }

    #[inline(always)]
    pub fn lowest_due(&self) -> Option<u64>
        ensures found { IfSome result (IsLeastFrom self.now.due.offsets 0) }
        ensures none { IfNone result (EndsBefore self.now.due.offsets 0) }
    {
        let (offset, _) = self.offsets.due_run()?;
        Some(offset)
    }

    /// Whether new bytes may go by the half's own limit.
    pub fn has_unsent(&self) -> bool
        ensures { result ≡ has_unsent self.now.lane }
    {
        self.learn_lawful();
        self.reset_code().is_none() && self.sent_end() < self.written().min(self.limit())
    }

    #[inline(always)]
    pub fn end_due(&self) -> bool
        ensures { result ≡ self.now.due.fin }
    {
        self.fin_noted && !self.fin_acked
    }

    /// The bytes of a chunk that is still in the buffer, in two pieces if they go around the ring's end.
    pub fn bytes(&self, chunk: Chunk) -> (&[u8], &[u8])
        requires { HasBytes self.now.lane chunk }
        ensures bytes { result.0.now ++ result.1.now ≡ bytes_of self.now.lane chunk }
        ensures len { length result.0.now + length result.1.now ≡ chunk.len }
    {
        let first = self.offsets.written() - self.offsets.kept_len() as u64;
        self.offsets
            .part((chunk.offset - first) as usize, chunk.len)
    }

    pub fn copy(&self, chunk: Chunk, into: &mut [u8])
        requires kept { HasBytes self.now.lane chunk }
        requires fits { length into.old ≡ chunk.len }
        ensures { into.new ≡ bytes_of self.now.lane chunk }
    {
        let (front, back) = self.bytes(chunk);
        let (begin, rest) = into.split_at_mut(front.len());
        begin.copy_from_slice(front);
        rest.copy_from_slice(back);
    }

    /// How many bytes the chunk's STREAM frame takes (RFC 9000, section 19.8).
    pub fn frame_len(&self, chunk: Chunk) -> usize
        requires { chunk.offset + chunk.len ≤ self.now.lane.written }
        ensures exact { result ≡ frame_len self.now.lane.id chunk.offset chunk.len }
        ensures some { chunk.len < result }
    {
        let _limit = self.limit;
        self.head_len(chunk.offset) + varint_len(chunk.len as u64) + chunk.len
    }

    pub fn has_sent(&self, chunk: Chunk) -> bool
        ensures { IsTrue result ↔ WasSent self.now.lane chunk }
    {
        let sent_end = self.offsets.sent_end();
        chunk.offset <= sent_end
            && chunk.len as u64 <= sent_end - chunk.offset
            && (!chunk.fin || self.fin_sent)
    }

    // A FIN alone: no byte is due that could carry it.
    #[tactic(auto, using(crate::proofs::Steps::due_has_bytes))]
    fn end_chunk(&self, room: usize) -> Option<Chunk>
        requires { EndsBefore self.now.due.offsets 0 }
        ensures found { (fresh : ℕ) → IfSome result (IsNextChunk self.now room fresh) }
        ensures none { (fresh : ℕ) → IfNone result (HasNoChunk self.now room fresh) }
        ensures kept { IfSome result (HasBytes self.now.lane) }
    {
        self.learn_lawful();
        if !self.end_due() {
            return None;
        }
        let offset = self.written();
        if room <= self.head_len(offset) {
            return None;
        }
        Some(Chunk {
            offset,
            len: 0,
            fin: true,
        })
    }

    fn head_len(&self, offset: u64) -> usize
        requires { offset ≤ MAX_VARINT }
        ensures exact { result ≡ 1 + short_len self.now.lane.id + offset_len offset }
        ensures small { result ≤ 17 }
    {
        let id_len = varint_len(self.id.value());
        if offset == 0 {
            1 + id_len
        } else {
            1 + id_len + varint_len(offset)
        }
    }
}
