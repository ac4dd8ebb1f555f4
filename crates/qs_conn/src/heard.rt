//! What was reported to the application, and what is next.
ghost use Rattle.std.specs.Prelude.{◌≡◌, ◌<◌, ◌⊎◌, ℕ, true, false, None, Some, Ok, OnOk, OnErr};
ghost use Rattle.qs_machine.specs.Heard.{heard_nothing, heard_opened, WasResetAcked, IsFirstNews, IsHeardBy, IsNextNews, IsNoted, IsReadOn, TakesMemory, WillWrite, with_opened, with_wants};
ghost use Rattle.qs_machine.specs.News.{IsHeld};
ghost use Rattle.qs_send.specs.Lane.{SendLane};
ghost use Rattle.qs_machine.specs.Tables.{lookup, index_of};
ghost use Rattle.qs_calls.specs.declared.news.News.TheVariants as News;
ghost use Rattle.qs_machine.specs.Seen.{seen};
ghost use Rattle.qs_wire.specs.Layout.{view};
ghost use Rattle.qs_wire.specs.Streams.{dir_of};
ghost use Rattle.qs_conn.specs.Hearing.{IsFirstFrom};

use crate::blocked::BlockedMarks;
use crate::by_dir::ByDir;
use crate::endpoint::Endpoint;
use crate::told_streams::ToldStreams;
use qs_calls::News;
use qs_ranges::NoMemory;
use qs_streams::index_of;
use qs_wire::{Dir, Frame, StreamId};
use std::alloc::Global;
use std::marker::Model;

/// What was reported to an application, so that each event comes once (RFC 9000, sections 2 to 4).
///
/// It stands beside the endpoint and is kept as marks of streams: an endpoint whose application asks for no events pays nothing for it.
/// Four things it can't know, so its user notes them: that it is about to write ([`will_write`](Heard::will_write)), that it waits for a
/// stream to open ([`wants`](Heard::wants)), that it read a stream ([`was_read`](Heard::was_read)), and that the peer says what blocks it
/// ([`was_told`](Heard::was_told)).
#[derive(Drop)]
pub struct Heard {
    opened: ByDir<u64>,
    readable: ToldStreams,
    short: ToldStreams,
    stopped: ToldStreams,
    sent: ToldStreams,
    ended: ToldStreams,
    wanted: ByDir<bool>,
    blocked: BlockedMarks,
}

impl Model for Heard {
    ghost use Rattle.qs_machine.specs.Heard.{Hearing};
    ghost use Rattle.qs_conn.specs.Hearing.{hearing_code};

    ghost Value = { Hearing };

    ghost coded = { hearing_code };

    ghost view = { λ h. record {
      opened_bidi = h.opened.bidi;
      opened_uni = h.opened.uni;
      readable = h.readable;
      short = h.short;
      stopped = h.stopped;
      sent = h.sent;
      ended = h.ended;
      wants_bidi = h.wanted.bidi;
      wants_uni = h.wanted.uni;
      blocked = h.blocked;
    } };
}

impl Heard {
    /// Nothing was reported, and nothing is waited for.
    pub fn new(alloc: Global) -> Heard
        ensures { result ≡ heard_nothing }
    {
        Heard {
            opened: ByDir::new(0, 0),
            readable: ToldStreams::new(alloc),
            short: ToldStreams::new(alloc),
            stopped: ToldStreams::new(alloc),
            sent: ToldStreams::new(alloc),
            ended: ToldStreams::new(alloc),
            wanted: ByDir::new(false, false),
            blocked: BlockedMarks::new(alloc),
        }
    }

    /// Returns the first event of an endpoint, and notes that it was reported. `None` only if there is none. Events of a kind come before
    /// those of the next, in the order of [`News`], and those of a lower stream first.
    ///
    /// `NoMemory` if there was no memory to note it; then nothing changed, and it comes again. It takes memory if no mark was made yet for
    /// its stream, or a higher one of its type, among those of its kind: never for `Opened`, `Writable`, `Available` and the kinds behind
    /// it. `Finished` and `ResetAcked` make one among those of `Stopped` too.
    #[tactic(auto, using(crate::proofs::Hearing::first_is_next, crate::proofs::Hearing::refused_next))]
    pub fn next_news(&mut self, end: &Endpoint) -> Result<Option<News>, NoMemory>
        ensures { IsNextNews end.now self.old result self.new }
    {
        let answer = self.first(end);
        self.hear(&answer)?;
        Ok(answer)
    }

    /// The application is about to write so many bytes to a stream. If that will be cut short, it is an event once the stream takes a byte
    /// again.
    ///
    /// `NoMemory` if there was no memory to note it; then nothing changed. It takes memory if no write to this stream, or to a higher one
    /// of its type, was noted before.
    pub fn will_write(
        &mut self,
        end: &Endpoint,
        stream: StreamId,
        len: usize,
    ) -> Result<(), NoMemory>
        ensures { WillWrite end.now stream len self.old result self.new }
    {
        if end.is_cut_short(stream, len) {
            return self.short.tell(stream);
        }
        Ok(())
    }

    /// The application waits to open a stream of a direction: that it may is an event then.
    pub fn wants(&mut self, dir: Dir)
        ensures { self.new ≡ with_wants self.old dir true }
    {
        self.wanted.set(dir, true);
    }

    /// The application read the stream, or stopped it: if nothing is left to read, new data is an event again.
    pub fn was_read(&mut self, end: &Endpoint, stream: StreamId)
        ensures { IsReadOn end.now stream self.old self.new }
    {
        if !end.is_readable(stream) {
            self.readable.forget(stream);
        }
    }

    /// A frame of the peer's was processed. If it says that a present limit blocks the peer, that of the connection, of a stream whose
    /// final size isn't known, or a count of streams, that is an event from now on until it is reported, even if the limit rises meanwhile.
    /// A limit that rose before isn't one, and any other frame changes nothing (RFC 9000, sections 4.1, 4.6 and 19.12 to 19.14).
    ///
    /// `NoMemory` if there was no memory to note it; then nothing changed. It takes memory if it names a stream, and no limit of this
    /// stream or of a higher one of its type was noted before.
    pub fn was_told(&mut self, end: &Endpoint, frame: &Frame<'_>) -> Result<(), NoMemory>
        ensures { IsNoted end.now (seen (view frame.now)) self.old result self.new }
    {
        match *frame {
            Frame::DataBlocked { limit } => {
                if end.granted() <= limit {
                    self.blocked.set_conn(true);
                }
                Ok(())
            }
            Frame::StreamDataBlocked { stream, limit } => {
                if end.is_met(stream, limit) {
                    return self.blocked.tell(stream);
                }
                Ok(())
            }
            Frame::StreamsBlocked { dir, count } => {
                if end.granted_streams(dir) <= count {
                    self.blocked.set_dir(dir, true);
                }
                Ok(())
            }
            _ => Ok(()),
        }
    }

    // In the order of kinds, each by a search of its own: what no longer holds is so never found.
    #[inline(always)]
    fn first(&self, end: &Endpoint) -> Option<News>
        ensures { IsFirstNews end.now self.now result }
    {
        if let Some(stream) = end.next_opened(self.opened) {
            return Some(News::Opened(stream));
        }
        if let Some(stream) = end.next_readable_untold(&self.readable) {
            return Some(News::Readable(stream));
        }
        if let Some(stream) = end.next_writable_of(&self.short) {
            return Some(News::Writable(stream));
        }
        if let Some(stream) = end.next_stopped_untold(&self.stopped) {
            return Some(News::Stopped(stream, end.stopped_with(stream)?));
        }
        if let Some(stream) = end.next_sent_untold(&self.sent) {
            return Some(sent_news(end, stream));
        }
        if let Some(stream) = end.next_ended_untold(&self.ended, 0) {
            return Some(News::Ended(stream));
        }
        match end.next_available(self.wanted) {
            Some(dir) => Some(News::Available(dir)),
            None => self.first_blocked(end),
        }
    }

    fn first_blocked(&self, end: &Endpoint) -> Option<News>
        ensures { IsFirstFrom 7 end.now self.now result }
    {
        if end.is_closed() {
            return None;
        }
        if self.blocked.has_conn() {
            return Some(News::DataBlocked);
        }
        if let Some(stream) = self.blocked.next_stream() {
            return Some(News::StreamDataBlocked(stream));
        }
        match self.blocked.next_dir() {
            Some(dir) => Some(News::StreamsBlocked(dir)),
            None => None,
        }
    }

    // Noted before it is returned, so that a refusal leaves it for the next call.
    #[inline(always)]
    fn hear(&mut self, answer: &Option<News>) -> Result<(), NoMemory>
        requires { (n : ℕ) → answer.now ≡ Some (News.Opened n) → index_of n ≡ heard_opened self.old (dir_of n) }
        ensures none { answer.now ≡ None → (result ≡ Ok tt) × (self.new ≡ self.old) }
        ensures ok { OnOk result ((news : News) → answer.now ≡ Some news → IsHeardBy news self.old self.new) }
        ensures err { OnErr result (self.new ≡ self.old) }
        ensures asks { OnErr result ((news : News) × (answer.now ≡ Some news) × TakesMemory news self.old) }
    {
        match *answer {
            None => {}
            Some(News::Opened(stream)) => self.hear_opened(stream),
            Some(News::Readable(stream)) => return self.readable.tell(stream),
            Some(News::Writable(stream)) => self.short.forget(stream),
            Some(News::Stopped(stream, _code)) => return self.stopped.tell(stream),
            // A half that came to its end takes no stop any more: with a mark of it a word of marks becomes full, and searches pass it.
            Some(News::Finished(stream)) => return self.sent.tell_both(&mut self.stopped, stream),
            Some(News::ResetAcked(stream)) => return self.sent.tell_both(&mut self.stopped, stream),
            Some(News::Ended(stream)) => return self.ended.tell(stream),
            Some(News::Available(dir)) => self.wanted.set(dir, false),
            Some(News::DataBlocked) => self.blocked.set_conn(false),
            Some(News::StreamDataBlocked(stream)) => self.blocked.forget(stream),
            Some(News::StreamsBlocked(dir)) => self.blocked.set_dir(dir, false),
        }
        Ok(())
    }

    fn hear_opened(&mut self, stream: StreamId)
        requires { index_of stream ≡ heard_opened self.old (dir_of stream) }
        ensures { self.new ≡ with_opened self.old (dir_of stream) }
    {
        let count = index_of(stream) as u64 + 1;
        match stream.dir() {
            Dir::Bidi => self.opened.bidi = count,
            Dir::Uni => self.opened.uni = count,
        }
    }
}

fn sent_news(end: &Endpoint, stream: StreamId) -> News
    ensures { (result ≡ News.ResetAcked stream) × IsHeld WasResetAcked end.now.sends stream ⊎ (result ≡ News.Finished stream) × ((l : SendLane) → lookup end.now.sends stream ≡ Some l → l.reset_acked ≡ false) }
{
    if end.was_reset_acked(stream) {
        News::ResetAcked(stream)
    } else {
        News::Finished(stream)
    }
}
