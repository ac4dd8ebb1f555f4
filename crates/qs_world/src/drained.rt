//! Events are played, and then what is left is played to its end.
ghost use Rattle.std.specs.Prelude.{◌≡◌, true, IfOk, IfErr};
ghost use Rattle.std.specs.List.{list_all};
ghost use Rattle.qs_calls.specs.Events.{fits};
ghost use Rattle.qs_world.specs.Draining.{DrainedPlayOf, DrainedReport};

use crate::playing::play_each;
use crate::report::{PlayFault, Report};
use crate::world::{Drained, World};
use qs_calls::Event;
use qs_conn::Settings;
use std::alloc::Global;

/// Plays the events between two new endpoints, as [`crate::play`] does, and then plain rounds until both are at rest, or that many more
/// events happened, as [`World::drain`] does. The report has all of it, as of one run.
///
/// Refused as [`crate::play`] is.
pub fn play_drained(
    alloc: Global,
    a: Settings,
    b: Settings,
    events: Vec<Event>,
    most: u64,
) -> Result<(Report, Drained), PlayFault>
    requires { list_all fits events.items ≡ true }
    ensures { DrainedPlayOf a b events.items most result }
{
    let mut world = match World::new(alloc, a, b) {
        Ok(world) => world,
        Err(fault) => return Err(PlayFault::Setup(fault)),
    };
    match play_each(&mut world, events) {
        Ok(()) => drain_and_report(world, most),
        Err(fault) => {
            world.discard();
            Err(fault)
        }
    }
}

fn drain_and_report(mut world: World, most: u64) -> Result<(Report, Drained), PlayFault>
    ensures { DrainedReport world most result }
{
    match world.drain(most) {
        Ok(drained) => match world.into_report() {
            Ok(report) => Ok((report, drained)),
            Err(fault) => Err(fault),
        },
        Err(fault) => {
            world.discard();
            Err(fault)
        }
    }
}
