//! What was reported to an application, and what it notes for that. A handle of its own, beside that of the endpoint, so that no contract
//! of another call speaks of it.
ghost use Rattle.std.specs.Prelude.{◌≡◌, ℕ, true, [], Option, Some, None, Result, MatchBool, nat_eq};
ghost use Rattle.qs_ranges.specs.declared.NoMemory.{NoMemory};
ghost use Rattle.qs_calls.specs.declared.news.News.{News};
ghost use Rattle.qs_machine.specs.Heard.{heard_nothing, IsNextNews, IsNoted, IsReadOn, WillWrite, with_wants};
ghost use Rattle.qs_machine.specs.Seen.{seen};
ghost use Rattle.qs_c.specs.Statuses.{Asked, Invalid, is_small, is_flag, dir_of, status_of};
ghost use Rattle.qs_c.specs.Events.{TestedHeard, CalledHeard, memory_status, news_told};
ghost use Rattle.qs_c.specs.Frames.{frame_in, is_frame};

use crate::answers::{INVALID, NO_MEMORY, OK};
use crate::calls::dir_of;
use crate::frame::GvFrame;
use crate::handle::Handle;
use crate::listener::Listener;
use crate::listener_handle::ListenerHandle;
use crate::news::{GvNews, of_news, of_note};
use crate::puts::{frame_of, is_known};
use crate::thing::Thing;
use qs_conn::{Endpoint, Heard};
use qs_wire::StreamId;
use std::alloc::Global;

/// Takes the memory for the notes, apart from the endpoint's: they take 2.9 KB, and many applications want no events. A handle that holds
/// some loses it.
#[unsafe(no_mangle)]
pub extern "C" fn gvp_heard_new(alloc: Global, heard: &mut ListenerHandle) -> u32
    ensures { MatchBool (nat_eq result 0) (heard.new.cell.value ≡ Some heard_nothing) ((result ≡ 2) × (heard.new.cell.value ≡ heard.old.cell.value)) }
{
    let nothing = Heard::new(alloc);
    let Ok(boxed) = Box::new(alloc, Listener { heard: nothing }) else {
        return NO_MEMORY;
    };
    heard.put(boxed);
    OK
}

#[unsafe(no_mangle)]
pub extern "C" fn gvp_heard_drop(alloc: Global, heard: &mut ListenerHandle)
    ensures { heard.new.cell.value ≡ None }
{
    let _gone = heard.take(alloc);
}

/// Returns the first event and notes that it was reported.
#[unsafe(no_mangle)]
pub extern "C" fn gvp_next_news(
    alloc: Global,
    heard: &mut ListenerHandle,
    end: &mut Handle,
    news: &mut GvNews,
) -> u32
    ensures { Asked end.old.cell.value end.new.cell.value true (Invalid result news.old news.new × (heard.new.cell.value ≡ heard.old.cell.value)) (λ e. CalledHeard heard.old.cell.value heard.new.cell.value true (Invalid result news.old news.new) (λ g h. (a : Result (Option News) NoMemory) × ((result, news.new) ≡ news_told a news.old) × IsNextNews e g a h)) }
{
    let Some(thing) = end.take(alloc) else {
        return INVALID;
    };
    let status = thing.next_news(alloc, heard, news);
    end.put(thing);
    status
}

/// Before the write, since afterwards nobody knows what was offered.
#[unsafe(no_mangle)]
pub extern "C" fn gvp_will_write(
    alloc: Global,
    heard: &mut ListenerHandle,
    end: &mut Handle,
    stream: u64,
    len: usize,
) -> u32
    ensures { Asked end.old.cell.value end.new.cell.value true ((result ≡ 1) × (heard.new.cell.value ≡ heard.old.cell.value)) (λ e. CalledHeard heard.old.cell.value heard.new.cell.value (is_small stream) (result ≡ 1) (λ g h. (a : Result (Unit {0}) NoMemory) × (result ≡ status_of memory_status a) × WillWrite e stream len g a h)) }
{
    let Some(thing) = end.take(alloc) else {
        return INVALID;
    };
    let status = thing.will_write(alloc, heard, stream, len);
    end.put(thing);
    status
}

#[unsafe(no_mangle)]
pub extern "C" fn gvp_wants(alloc: Global, heard: &mut ListenerHandle, dir: u32) -> u32
    ensures { CalledHeard heard.old.cell.value heard.new.cell.value (is_flag dir) (result ≡ 1) (λ g h. (result ≡ 0) × (h ≡ with_wants g (dir_of dir) true)) }
{
    let Some(mut listener) = heard.take(alloc) else {
        return INVALID;
    };
    let status = listener.wants(dir);
    heard.put(listener);
    status
}

#[unsafe(no_mangle)]
pub extern "C" fn gvp_was_read(
    alloc: Global,
    heard: &mut ListenerHandle,
    end: &mut Handle,
    stream: u64,
) -> u32
    ensures { Asked end.old.cell.value end.new.cell.value true ((result ≡ 1) × (heard.new.cell.value ≡ heard.old.cell.value)) (λ e. CalledHeard heard.old.cell.value heard.new.cell.value (is_small stream) (result ≡ 1) (λ g h. (result ≡ 0) × IsReadOn e stream g h)) }
{
    let Some(thing) = end.take(alloc) else {
        return INVALID;
    };
    let status = thing.was_read(alloc, heard, stream);
    end.put(thing);
    status
}

/// A frame that was passed in, which may say what blocks the peer.
#[unsafe(no_mangle)]
pub extern "C" fn gvp_was_told(
    alloc: Global,
    heard: &mut ListenerHandle,
    end: &mut Handle,
    frame: &GvFrame,
    bytes: &[u8],
) -> u32
    ensures { Asked end.old.cell.value end.new.cell.value true ((result ≡ 1) × (heard.new.cell.value ≡ heard.old.cell.value)) (λ e. CalledHeard heard.old.cell.value heard.new.cell.value (is_frame frame.now) (result ≡ 1) (λ g h. (a : Result (Unit {0}) NoMemory) × (result ≡ status_of memory_status a) × IsNoted e (seen (frame_in frame.now bytes.now [])) g a h)) }
{
    let Some(thing) = end.take(alloc) else {
        return INVALID;
    };
    let status = thing.was_told(alloc, heard, frame, bytes);
    end.put(thing);
    status
}

impl Thing {
    pub(crate) fn next_news(
        &self,
        alloc: Global,
        heard: &mut ListenerHandle,
        news: &mut GvNews,
    ) -> u32
        ensures { CalledHeard heard.old.cell.value heard.new.cell.value true (Invalid result news.old news.new) (λ g h. (a : Result (Option News) NoMemory) × ((result, news.new) ≡ news_told a news.old) × IsNextNews self.now g a h) }
    {
        let Some(mut listener) = heard.take(alloc) else {
            return INVALID;
        };
        let status = listener.next_news(&self.end, news);
        heard.put(listener);
        status
    }

    pub(crate) fn will_write(
        &self,
        alloc: Global,
        heard: &mut ListenerHandle,
        stream: u64,
        len: usize,
    ) -> u32
        ensures { CalledHeard heard.old.cell.value heard.new.cell.value (is_small stream) (result ≡ 1) (λ g h. (a : Result (Unit {0}) NoMemory) × (result ≡ status_of memory_status a) × WillWrite self.now stream len g a h) }
    {
        let Some(mut listener) = heard.take(alloc) else {
            return INVALID;
        };
        let status = listener.will_write(&self.end, stream, len);
        heard.put(listener);
        status
    }

    pub(crate) fn was_read(&self, alloc: Global, heard: &mut ListenerHandle, stream: u64) -> u32
        ensures { CalledHeard heard.old.cell.value heard.new.cell.value (is_small stream) (result ≡ 1) (λ g h. (result ≡ 0) × IsReadOn self.now stream g h) }
    {
        let Some(mut listener) = heard.take(alloc) else {
            return INVALID;
        };
        let status = listener.was_read(&self.end, stream);
        heard.put(listener);
        status
    }

    pub(crate) fn was_told(
        &self,
        alloc: Global,
        heard: &mut ListenerHandle,
        frame: &GvFrame,
        bytes: &[u8],
    ) -> u32
        ensures { CalledHeard heard.old.cell.value heard.new.cell.value (is_frame frame.now) (result ≡ 1) (λ g h. (a : Result (Unit {0}) NoMemory) × (result ≡ status_of memory_status a) × IsNoted self.now (seen (frame_in frame.now bytes.now [])) g a h) }
    {
        let Some(mut listener) = heard.take(alloc) else {
            return INVALID;
        };
        let status = listener.was_told(&self.end, frame, bytes);
        heard.put(listener);
        status
    }
}

impl Listener {
    pub(crate) fn next_news(&mut self, end: &Endpoint, news: &mut GvNews) -> u32
        ensures { (a : Result (Option News) NoMemory) × ((result, news.new) ≡ news_told a news.old) × IsNextNews end.now self.old a self.new }
    {
        of_news(self.heard.next_news(end), news)
    }

    pub(crate) fn will_write(&mut self, end: &Endpoint, stream: u64, len: usize) -> u32
        ensures { TestedHeard (is_small stream) self.old self.new (result ≡ 1) ((a : Result (Unit {0}) NoMemory) × (result ≡ status_of memory_status a) × WillWrite end.now stream len self.old a self.new) }
    {
        let Some(id) = StreamId::new(stream) else {
            return INVALID;
        };
        of_note(self.heard.will_write(end, id, len))
    }

    pub(crate) fn wants(&mut self, dir: u32) -> u32
        ensures { TestedHeard (is_flag dir) self.old self.new (result ≡ 1) ((result ≡ 0) × (self.new ≡ with_wants self.old (dir_of dir) true)) }
    {
        let Some(way) = dir_of(dir) else {
            return INVALID;
        };
        self.heard.wants(way);
        OK
    }

    pub(crate) fn was_read(&mut self, end: &Endpoint, stream: u64) -> u32
        ensures { TestedHeard (is_small stream) self.old self.new (result ≡ 1) ((result ≡ 0) × IsReadOn end.now stream self.old self.new) }
    {
        let Some(id) = StreamId::new(stream) else {
            return INVALID;
        };
        self.heard.was_read(end, id);
        OK
    }

    pub(crate) fn was_told(&mut self, end: &Endpoint, frame: &GvFrame, bytes: &[u8]) -> u32
        ensures { TestedHeard (is_frame frame.now) self.old self.new (result ≡ 1) ((a : Result (Unit {0}) NoMemory) × (result ≡ status_of memory_status a) × IsNoted end.now (seen (frame_in frame.now bytes.now [])) self.old a self.new) }
    {
        if !is_known(frame) || StreamId::new(frame.stream).is_none() {
            return INVALID;
        }
        let Some(given) = frame_of(frame, bytes, &[]) else {
            return INVALID;
        };
        of_note(self.heard.was_told(end, &given))
    }
}
