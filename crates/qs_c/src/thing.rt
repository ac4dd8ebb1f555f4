//! What a handle holds.
ghost use Rattle.std.specs.Prelude.{◌≡◌};

use qs_conn::Endpoint;
use std::marker::Model;

/// An endpoint, as one value of this crate.
#[derive(Drop)]
pub struct Thing {
    pub(crate) end: Endpoint,
}

impl Model for Thing {
    ghost use Rattle.qs_machine.specs.Ends.{End};
    ghost use Rattle.qs_machine.specs.EndCodes.{end_code};

    ghost Value = { End };

    ghost coded = { end_code };

    ghost view = { λ t. t.end };
}
