//! A box as its address, or none.
ghost use Rattle.std.specs.Prelude.{◌≡◌, Some, None, Option, is_some, true};
ghost use Rattle.std.specs.Coded.{coded_option};
ghost use Rattle.qs_machine.specs.Ends.{End};
ghost use Rattle.qs_machine.specs.EndCodes.{end_code};
ghost use Rattle.qs_c.specs.Kept.{kept};

use crate::loose::Loose;
use crate::thing::Thing;
use std::alloc::Global;
use std::marker::Model;

/// Room for a box's address, which C can lay out: a flag and a word. It owns what the box owned.
#[repr(C)]
#[derive(Drop)]
pub struct Cell {
    pub(crate) at: *mut u8,
    alloc: Global,
    pub(crate) ghost value: { Option End } by { coded_option end_code },
}

impl Model for Cell {
    ghost also_owns = { λ c. kept c.alloc c.at c.value };
}

impl Cell {
    pub(crate) fn empty(at: *mut u8, alloc: Global) -> Cell
        ensures { result.value ≡ None }
    {
        Cell { at, alloc }
    }

    pub(crate) fn of(loose: Loose<Thing, Global>) -> Cell
        ensures { result.value ≡ Some loose.value }
    {
        let Loose { at, alloc } = loose;
        Cell {
            at: at as *mut u8,
            alloc,
        }
    }

    pub(crate) fn into_loose(self) -> Loose<Thing, Global>
        requires { is_some self.value ≡ true }
        ensures { Some result.value ≡ self.value }
    {
        let Cell { at, alloc } = self;
        Loose {
            at: at as *mut Thing,
            alloc,
        }
    }
}
