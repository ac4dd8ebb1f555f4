//! A receiving half that was read to its end, in 24 bytes. Most streams that ever were are such: whole, read, neither reset nor stopped.
ghost use Rattle.std.specs.Prelude.{◌≡◌, ◌≤◌};
ghost use Rattle.qs_recv.specs.Over.{IsOver};
ghost use Rattle.qs_recv.specs.Lane.{set_window, MAX_WINDOW};

use crate::rest::Rest;
use crate::window::Windows;
use std::marker::Model;

/// Its length, how far its limit lies past that (at most the greatest window, so four bytes do), and its windows. Nothing that may still
/// come or be called changes any of it but another window, so it needs no box.
#[derive(Drop)]
pub(crate) struct Over {
    pub(crate) end: u64,
    pub(crate) past: u32,
    pub(crate) windows: Windows,
}

impl Model for Over {
    ghost use Rattle.qs_recv.specs.Lane.{RecvLane};
    ghost use Rattle.qs_recv.specs.Codes.{lane_code};
    ghost use Rattle.qs_recv.specs.Rest.{IsAtRest};
    ghost use Rattle.qs_recv.specs.Over.{over_lane};

    ghost Value = { RecvLane };

    ghost coded = { lane_code };

    ghost view = { λ o. over_lane o.end o.past o.windows };

    ghost invariant = { λ o. IsAtRest (over_lane o.end o.past o.windows) o.end o.end };
}

impl Over {
    pub(crate) fn rest(&self) -> Rest
        ensures { result ≡ self.now }
    {
        Rest {
            read_count: self.end,
            received_end: self.end,
            limit: self.end + self.past as u64,
            size: self.end,
            reset: 0,
            stop: 0,
            windows: self.windows,
            is_sized: true,
            is_reset: false,
            is_stopped: false,
            reader_done: true,
        }
    }

    pub(crate) fn set_window(&mut self, window: u64)
        requires some { 1 ≤ window }
        requires small { window ≤ MAX_WINDOW }
        ensures { self.new ≡ set_window self.old window }
    {
        self.windows = self.windows.with(window);
    }

    pub(crate) fn is_over(&self)
        ensures { IsOver self.now }
    {
        let _ = &self.end;
    }
}
