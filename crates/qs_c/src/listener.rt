//! What a handle of what was heard holds.
ghost use Rattle.std.specs.Prelude.{◌≡◌};

use qs_conn::Heard;
use std::marker::Model;

/// What was reported, as one value of this crate.
#[derive(Drop)]
pub struct Listener {
    pub(crate) heard: Heard,
}

impl Model for Listener {
    ghost use Rattle.qs_machine.specs.Heard.{Hearing};
    ghost use Rattle.qs_conn.specs.Hearing.{hearing_code};

    ghost Value = { Hearing };

    ghost coded = { hearing_code };

    ghost view = { λ l. l.heard };
}
