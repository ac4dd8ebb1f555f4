//! A handle of what was heard, that C holds.
ghost use Rattle.std.specs.Prelude.{◌≡◌, Some, None, MatchOption, is_some};

use crate::listener::Listener;
use crate::listener_cell::ListenerCell;
use crate::loose::Loose;
use std::alloc::Global;
use std::mem::replace;
use std::ptr::null_mut;

#[repr(C)]
#[derive(Drop)]
pub struct ListenerHandle {
    live: bool,
    pub(crate) cell: ListenerCell,
    ghost told: { live ≡ is_some cell.value },
}

impl ListenerHandle {
    pub(crate) fn take(&mut self, alloc: Global) -> Option<Box<Listener>>
        ensures { MatchOption result ((self.old.cell.value ≡ None) × (self.new ≡ self.old)) (λ b. (self.old.cell.value ≡ Some b.value) × (self.new.cell.value ≡ None)) }
    {
        if !self.live {
            return None;
        }
        let ListenerHandle { live: _, cell } = replace(self, ListenerHandle::none(alloc));
        Some(cell.into_loose().into_box())
    }

    pub(crate) fn put(&mut self, value: Box<Listener>)
        ensures { self.new.cell.value ≡ Some value.value }
    {
        *self = ListenerHandle {
            live: true,
            cell: ListenerCell::of(Loose::of(value)),
        };
    }

    fn none(alloc: Global) -> ListenerHandle
        ensures { result.cell.value ≡ None }
    {
        let at = null_mut();
        let cell = ListenerCell::empty(at, alloc);
        ListenerHandle { live: false, cell }
    }
}
