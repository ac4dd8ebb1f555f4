ghost use Rattle.std.specs.Prelude.{◌≡◌, true, Result};
ghost use Rattle.qs_calls.specs.declared.settings.SetFault.{SetFault};
ghost use Rattle.qs_machine.specs.Setting.{ConnWindow, Grant, SendBuffer, StreamWindow, SetStep};
ghost use Rattle.qs_c.specs.Statuses.{Called, Tested, is_small, is_flag, dir_of, set_status, status_of};

use crate::answers::{INVALID, of_set};
use crate::calls::dir_of;
use crate::handle::Handle;
use crate::thing::Thing;
use qs_wire::StreamId;
use std::alloc::Global;

#[unsafe(no_mangle)]
pub extern "C" fn gvp_set_conn_window(alloc: Global, end: &mut Handle, window: u64) -> u32
    ensures { Called end.old.cell.value end.new.cell.value true (result ≡ 1) (λ e f. (a : Result (Unit {0}) SetFault) × (result ≡ status_of set_status a) × SetStep e (ConnWindow window) a f) }
{
    let Some(mut thing) = end.take(alloc) else {
        return INVALID;
    };
    let status = thing.set_conn_window(window);
    end.put(thing);
    status
}

#[unsafe(no_mangle)]
pub extern "C" fn gvp_set_grant(alloc: Global, end: &mut Handle, dir: u32, streams: u64) -> u32
    ensures { Called end.old.cell.value end.new.cell.value (is_flag dir) (result ≡ 1) (λ e f. (a : Result (Unit {0}) SetFault) × (result ≡ status_of set_status a) × SetStep e (Grant (dir_of dir) streams) a f) }
{
    let Some(mut thing) = end.take(alloc) else {
        return INVALID;
    };
    let status = thing.set_grant(dir, streams);
    end.put(thing);
    status
}

#[unsafe(no_mangle)]
pub extern "C" fn gvp_set_send_buffer(
    alloc: Global,
    end: &mut Handle,
    stream: u64,
    size: usize,
) -> u32
    ensures { Called end.old.cell.value end.new.cell.value (is_small stream) (result ≡ 1) (λ e f. (a : Result (Unit {0}) SetFault) × (result ≡ status_of set_status a) × SetStep e (SendBuffer stream size) a f) }
{
    let Some(mut thing) = end.take(alloc) else {
        return INVALID;
    };
    let status = thing.set_send_buffer(stream, size);
    end.put(thing);
    status
}

#[unsafe(no_mangle)]
pub extern "C" fn gvp_set_stream_window(
    alloc: Global,
    end: &mut Handle,
    stream: u64,
    window: u64,
) -> u32
    ensures { Called end.old.cell.value end.new.cell.value (is_small stream) (result ≡ 1) (λ e f. (a : Result (Unit {0}) SetFault) × (result ≡ status_of set_status a) × SetStep e (StreamWindow stream window) a f) }
{
    let Some(mut thing) = end.take(alloc) else {
        return INVALID;
    };
    let status = thing.set_stream_window(stream, window);
    end.put(thing);
    status
}

impl Thing {
    pub(crate) fn set_conn_window(&mut self, window: u64) -> u32
        ensures { (a : Result (Unit {0}) SetFault) × (result ≡ status_of set_status a) × SetStep self.old (ConnWindow window) a self.new }
    {
        of_set(self.end.set_conn_window(window))
    }

    pub(crate) fn set_grant(&mut self, dir: u32, streams: u64) -> u32
        ensures { Tested (is_flag dir) self.old self.new (result ≡ 1) ((a : Result (Unit {0}) SetFault) × (result ≡ status_of set_status a) × SetStep self.old (Grant (dir_of dir) streams) a self.new) }
    {
        let Some(way) = dir_of(dir) else {
            return INVALID;
        };
        of_set(self.end.set_grant(way, streams))
    }

    pub(crate) fn set_send_buffer(&mut self, stream: u64, size: usize) -> u32
        ensures { Tested (is_small stream) self.old self.new (result ≡ 1) ((a : Result (Unit {0}) SetFault) × (result ≡ status_of set_status a) × SetStep self.old (SendBuffer stream size) a self.new) }
    {
        let Some(id) = StreamId::new(stream) else {
            return INVALID;
        };
        of_set(self.end.set_send_buffer(id, size))
    }

    pub(crate) fn set_stream_window(&mut self, stream: u64, window: u64) -> u32
        ensures { Tested (is_small stream) self.old self.new (result ≡ 1) ((a : Result (Unit {0}) SetFault) × (result ≡ status_of set_status a) × SetStep self.old (StreamWindow stream window) a self.new) }
    {
        let Some(id) = StreamId::new(stream) else {
            return INVALID;
        };
        of_set(self.end.set_stream_window(id, window))
    }
}
