//! A close that the endpoint didn't see is noted, and returned.
ghost use Rattle.std.specs.Prelude.{◌≡◌, ◌&&◌, true, option_map};
ghost use Rattle.qs_machine.specs.Receiving.{noted_closed};
ghost use Rattle.qs_machine.specs.Asking.{noted_closing};
ghost use Rattle.qs_c.specs.Statuses.{Called, Asked, Tested, Invalid, is_flag, found};
ghost use Rattle.qs_c.specs.Structs.{close_in, told_of};

use crate::answers::{INVALID, NONE, OK};
use crate::handle::Handle;
use crate::structs::GvTold;
use crate::thing::Thing;
use qs_calls::{CloseKind, Closer, NotedClose};
use std::alloc::Global;

/// By numbers, which C checks against nothing: 0 is this side or the transport, 1 the peer or the application, and another is refused.
#[unsafe(no_mangle)]
pub extern "C" fn gvp_note_closed(
    alloc: Global,
    end: &mut Handle,
    by: u32,
    kind: u32,
    code: u64,
) -> u32
    ensures { Called end.old.cell.value end.new.cell.value (is_flag by && is_flag kind) (result ≡ 1) (λ e f. (result ≡ 0) × (f ≡ noted_closed (close_in by kind code) e)) }
{
    let Some(mut thing) = end.take(alloc) else {
        return INVALID;
    };
    let status = thing.note_closed(by, kind, code);
    end.put(thing);
    status
}

/// As numbers of the same meaning. One struct, so that one contract says all of it.
#[unsafe(no_mangle)]
pub extern "C" fn gvp_noted_close(alloc: Global, end: &mut Handle, told: &mut GvTold) -> u32
    ensures { Asked end.old.cell.value end.new.cell.value true (Invalid result told.old told.new) (λ e. (result, told.new) ≡ found (option_map told_of (noted_closing e.closed)) told.old) }
{
    let Some(thing) = end.take(alloc) else {
        return INVALID;
    };
    let status = thing.noted_close(told);
    end.put(thing);
    status
}

impl Thing {
    pub(crate) fn note_closed(&mut self, by: u32, kind: u32, code: u64) -> u32
        ensures { Tested (is_flag by && is_flag kind) self.old self.new (result ≡ 1) ((result ≡ 0) × (self.new ≡ noted_closed (close_in by kind code) self.old)) }
    {
        if by > 1 {
            return INVALID;
        }
        if kind > 1 {
            return INVALID;
        }
        self.end.note_closed(close_of(by, kind, code));
        OK
    }

    pub(crate) fn noted_close(&self, told: &mut GvTold) -> u32
        ensures { (result, told.new) ≡ found (option_map told_of (noted_closing self.now.closed)) told.old }
    {
        match self.end.noted_close() {
            Some(close) => {
                *told = GvTold::of(close);
                OK
            }
            None => NONE,
        }
    }
}

fn close_of(by: u32, kind: u32, code: u64) -> NotedClose
    ensures { result ≡ close_in by kind code }
{
    NotedClose {
        by: if by == 0 { Closer::Us } else { Closer::Peer },
        kind: if kind == 0 {
            CloseKind::Transport
        } else {
            CloseKind::Application
        },
        code,
    }
}
