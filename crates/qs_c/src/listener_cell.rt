//! A box of what was heard as its address, or none.
ghost use Rattle.std.specs.Prelude.{◌≡◌, Some, None, Option, is_some, true};
ghost use Rattle.std.specs.Coded.{coded_option};
ghost use Rattle.qs_machine.specs.Heard.{Hearing};
ghost use Rattle.qs_conn.specs.Hearing.{hearing_code};
ghost use Rattle.qs_c.specs.KeptHeard.{kept_heard};

use crate::listener::Listener;
use crate::loose::Loose;
use std::alloc::Global;
use std::marker::Model;

/// As `Cell`, of what was reported.
#[repr(C)]
#[derive(Drop)]
pub struct ListenerCell {
    at: *mut u8,
    alloc: Global,
    pub(crate) ghost value: { Option Hearing } by { coded_option hearing_code },
}

impl Model for ListenerCell {
    ghost also_owns = { λ c. kept_heard c.alloc c.at c.value };
}

impl ListenerCell {
    pub(crate) fn empty(at: *mut u8, alloc: Global) -> ListenerCell
        ensures { result.value ≡ None }
    {
        ListenerCell { at, alloc }
    }

    pub(crate) fn of(loose: Loose<Listener, Global>) -> ListenerCell
        ensures { result.value ≡ Some loose.value }
    {
        let Loose { at, alloc } = loose;
        ListenerCell {
            at: at as *mut u8,
            alloc,
        }
    }

    pub(crate) fn into_loose(self) -> Loose<Listener, Global>
        requires { is_some self.value ≡ true }
        ensures { Some result.value ≡ self.value }
    {
        let ListenerCell { at, alloc } = self;
        Loose {
            at: at as *mut Listener,
            alloc,
        }
    }
}
