//! The windows of a receiving half and the share by which its limit moves, in 12 bytes. They stay with the half, so that no call hands them
//! in and no stream costs a look at the settings.
ghost use Rattle.std.specs.Prelude.{◌≡◌, ◌≤◌, max};
ghost use Rattle.qs_recv.specs.Lane.{MAX_WINDOW};

use crate::credit::Share;

/// The greatest window that was set bounds what an assembly may hold, since credit that was granted stays.
#[derive(Clone, Copy, Drop)]
pub(crate) struct Windows {
    pub(crate) widest: u32,
    pub(crate) size: u32,
    pub(crate) share: Share,
}

impl Windows {
    pub(crate) fn with(self, window: u64) -> Self
        requires { window ≤ MAX_WINDOW }
        ensures { result ≡ record self { widest = max self.widest window; size = window } }
    {
        let size = window as u32;
        Windows {
            widest: self.widest.max(size),
            size,
            share: self.share,
        }
    }
}
