//! A handle that C holds. It may hold nothing: C can't be kept from passing one that was freed and cleared.
ghost use Rattle.std.specs.Prelude.{◌≡◌, Some, None, MatchOption, is_some};

use crate::cell::Cell;
use crate::loose::Loose;
use crate::thing::Thing;
use std::alloc::Global;
use std::mem::replace;
use std::ptr::null_mut;

#[repr(C)]
#[derive(Drop)]
pub struct Handle {
    live: bool,
    pub(crate) cell: Cell,
    ghost told: { live ≡ is_some cell.value },
}

impl Handle {
    pub(crate) fn take(&mut self, alloc: Global) -> Option<Box<Thing>>
        ensures { MatchOption result ((self.old.cell.value ≡ None) × (self.new ≡ self.old)) (λ b. (self.old.cell.value ≡ Some b.value) × (self.new.cell.value ≡ None)) }
    {
        if !self.live {
            return None;
        }
        let Handle { live: _, cell } = replace(self, Handle::none(alloc));
        Some(cell.into_loose().into_box())
    }

    pub(crate) fn put(&mut self, value: Box<Thing>)
        ensures { self.new.cell.value ≡ Some value.value }
    {
        *self = Handle {
            live: true,
            cell: Cell::of(Loose::of(value)),
        };
    }

    /// Lent as long as the handle is, which is why C may use what a look shows until the next call.
    pub(crate) fn held(&mut self) -> Option<&Thing>
        ensures { MatchOption result (self.old.cell.value ≡ None) (λ thing. self.old.cell.value ≡ Some thing.now) }
    {
        if !self.live {
            return None;
        }
        Some(self.cell.lend())
    }

    fn none(alloc: Global) -> Handle
        ensures { result.cell.value ≡ None }
    {
        let at = null_mut();
        let cell = Cell::empty(at, alloc);
        Handle { live: false, cell }
    }
}
