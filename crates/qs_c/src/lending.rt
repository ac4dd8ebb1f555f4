//! What a cell holds is lent, where it stands.
ghost use Rattle.std.specs.Prelude.{◌≡◌, Some, is_some, true};
ghost use types.Logic.{sem};
ghost use Rattle.qs_c.specs.Lending.{cell_follows};

use crate::cell::Cell;
use crate::thing::Thing;

impl Cell {
    /// It is the cell's again once the borrow ends, so nothing is taken out that could be lost on the way.
    pub(crate) fn lend(&mut self) -> &mut Thing
        requires { is_some self.old.value ≡ true }
        ensures* writes_back { sem 𝓛 (cell_follows self.entry result) }
        ensures value { Some result.now ≡ self.old.value }
    {
        unsafe { &mut *(self.at as *mut Thing) }
    }
}
