//! Making an endpoint.
ghost use Rattle.std.specs.Prelude.{◌≡◌, ◌&&◌, true, MatchBool, Some, None, Ok, nat_eq, if◌then◌else◌};
ghost use Rattle.qs_machine.specs.Ends.{wide_end_made};
ghost use Rattle.qs_c.specs.Statuses.{Tested, IsNew, Starts, setup_status, is_flag, role_of};
ghost use Rattle.qs_c.specs.Structs.{settings_in, is_tuning, tuning_in, limits_in};

use crate::answers::{INVALID, NO_MEMORY, OK, of_setup};
use crate::handle::Handle;
use crate::structs::{GvLimits, GvSettings, GvTuning};
use crate::thing::Thing;
use qs_conn::{Endpoint, PeerLimits, Settings};
use qs_wire::Role;
use std::alloc::Global;

/// The least settings: an endpoint of them holds the memory until the right one takes its place.
const LEAST: Settings = Settings {
    conn_window: 1,
    bidi_local: 1,
    bidi_remote: 1,
    uni: 1,
    send_buffer: 1,
    grant_bidi: 0,
    grant_uni: 0,
    lifetime_bidi: 0,
    lifetime_uni: 0,
};

const NOTHING_GRANTED: PeerLimits = PeerLimits {
    max_data: 0,
    bidi_local: 0,
    bidi_remote: 0,
    uni: 0,
    streams_bidi: 0,
    streams_uni: 0,
};

pub(crate) fn reserve(alloc: Global, end: &mut Handle) -> u32
    ensures { MatchBool (nat_eq result 0) (IsNew end.new.cell.value) ((result ≡ 2) × (end.new.cell.value ≡ end.old.cell.value)) }
{
    let Ok(least) = Endpoint::new(alloc, Role::Client, LEAST, NOTHING_GRANTED) else {
        return NO_MEMORY;
    };
    let Ok(boxed) = Box::new(alloc, Thing { end: least }) else {
        return NO_MEMORY;
    };
    end.put(boxed);
    OK
}

impl Thing {
    pub(crate) fn start(
        &mut self,
        alloc: Global,
        role: u32,
        settings: &GvSettings,
        tuning: &GvTuning,
        peer: &GvLimits,
    ) -> u32
        ensures { Tested (is_flag role && is_tuning tuning.now) self.old self.new (result ≡ 1) (Starts (wide_end_made (role_of role) (settings_in settings.now) (tuning_in tuning.now) (limits_in peer.now)) result self.old self.new) }
    {
        let Some(side) = role_of(role) else {
            return INVALID;
        };
        let Some(chosen) = tuning.tuning() else {
            return INVALID;
        };
        match Endpoint::with_tuning(alloc, side, settings.settings(), chosen, peer.limits()) {
            Ok(made) => self.begin(made),
            Err(fault) => of_setup(fault),
        }
    }

    fn begin(&mut self, made: Endpoint) -> u32
        ensures { Starts (Ok made) result self.old self.new }
    {
        self.end = made;
        OK
    }
}

fn role_of(role: u32) -> Option<Role>
    ensures { result ≡ (if is_flag role then Some (role_of role) else None) }
{
    match role {
        0 => Some(Role::Client),
        1 => Some(Role::Server),
        _ => None,
    }
}
